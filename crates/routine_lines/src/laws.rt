//! Each function here does nothing, and its contract is a law.
ghost use Rattle.routine_lines.specs.Laws.{LinkedCallsKeepTheirLines, TablesAreKept};

/// In a module that has the routines as its first functions, under any limit of pages and any host, the body of each keeps its line of
/// the table, and calls no routine but by that one's line.
pub fn tables_are_kept<World>()
    ensures { TablesAreKept World }
{}

/// Each call of a linked routine, whose line's conditions hold, ends as its line says: with the result and the memory, or with a trap,
/// after the steps that the line tells, within 19 stack words for each call that it takes.
pub fn linked_calls_keep_their_lines<World>()
    ensures { LinkedCallsKeepTheirLines World }
{}
