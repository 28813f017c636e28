//! Laws of executions, and of whole runs.
ghost use Rattle.elaboration_kept.specs.Premises.{ActorsAreSound, SavesAreSound, StartsAreSound};
ghost use Rattle.elaboration_kept.specs.Runs.{MeasuredWellTypedRunsKeep, WellTypedRunsKeep};

/// In each state that is typed, and in whose values functions open no more at once than they have nodes, executions of a well-typed program are as the laws
/// of elaboration ask: calls of methods and answers, starts, also over what an upgrade kept, and saves. What events leave is such a state again.
pub fn typed_programs_are_sound()
    ensures events { ActorsAreSound }
    ensures starts { StartsAreSound }
    ensures saves { SavesAreSound }
{}

/// What elaborated programs do over a list of events, with calls, answers, installs and upgrades, the typed programs do by the meaning, exhaustions deserved
/// or not, at no more than so many times the weight, three at least, and no deeper: where these are well typed, their functions open no more at once than they
/// have nodes, and their names have their places.
pub fn well_typed_runs_are_kept()
    ensures runs { WellTypedRunsKeep }
    ensures measured { MeasuredWellTypedRunsKeep }
{}
