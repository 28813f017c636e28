//! Each function here does nothing, and its contract is a law.
ghost use Rattle.limited_runs.specs.Laws.{BodiesEndWithinLimits, CutsAddUp, CutsAreResults, HostRunsOut, HostShowsTexts};

/// Under the host, code that comes to an end with exactly so many steps runs out of them with fewer, after a part of the prints.
pub fn host_runs_out()
    ensures { HostRunsOut }
{}

/// Under any limits a call of a body's function comes to the end that the machine comes to from the body's first state, or is cut off
/// at a limit that the weight and the depth of the machine's run reach, after a part of its prints. Where the machine has made more turns
/// than there are steps, it is cut off.
pub fn bodies_end_within_limits()
    ensures { BodiesEndWithinLimits }
{}

/// What a call was cut off at, behind a part of an execution that was paid for, is what the whole was cut off at.
pub fn cuts_add_up()
    ensures { CutsAddUp }
{}

/// An execution in which such a call is cut off ends at a limit, as an execution of a program that has come to such a weight and depth
/// is exhausted there, where a unit of weight pays for its steps and bytes, and what the actor was charged for for its heap. It may be
/// asked to have used so many times the steps and pages, for the passes above.
pub fn cuts_are_results<Result>()
    ensures { CutsAreResults Result }
{}

/// The host prints texts that stand in a memory, and ends an execution with them.
pub fn host_shows_texts()
    ensures { HostShowsTexts }
{}
