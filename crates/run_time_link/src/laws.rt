//! A law: the function does nothing, and its contract is a theorem.
ghost use Rattle.run_time_link.specs.Laws.{RoutinesArePlaced};

/// In a linked module each routine is the function of its place, with its own type.
pub fn routines_are_placed()
    ensures { RoutinesArePlaced }
{}
