//! Laws of whole runs.
ghost use Rattle.elaboration_back.specs.Runs.{RunsElaborate};

/// What well-typed programs do over a list of events by the meaning, with calls, answers, installs and upgrades, where nothing is exhausted, the elaborated
/// programs do: where their functions open no more at once than they have nodes, and their names have their places.
pub fn typed_runs_are_elaborated()
    ensures { RunsElaborate }
{}
