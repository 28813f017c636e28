//! Laws of starts and saves, and of whole runs.
ghost use Rattle.elaboration_starts.specs.Runs.{ElaboratedRunsKeep, MeasuredElaboratedRunsKeep};
ghost use Rattle.elaboration_starts.specs.Saves.{SavesEnd, SavesFollow};
ghost use Rattle.elaboration_starts.specs.Starts.{InstallsEnd, InstallsFollow, UpgradesEnd, UpgradesFollow};

/// An install of an elaborated program: after any number of turns it has shown no more than that of the typed program after some, at no more than so many
/// times its weight (three at least), and no deeper; where it has ended, the other has ended alike, and the actors have begun alike. The names of
/// the program have their places, and the start is sound and stays inside the declarations.
pub fn installs_are_followed()
    ensures { InstallsFollow }
{}

/// An upgrade to it from values of its types, with what it costs to look at these, likewise, with a hook behind it and without one.
pub fn upgrades_are_followed()
    ensures { UpgradesFollow }
{}

/// What the actor saves before an upgrade, with a hook and without one, likewise; where it has ended with what is kept, the same is kept. The hook and the
/// cells of the actor belong together, the save is sound and stays inside the hook, and behind it the cells hold values of their types.
pub fn saves_are_followed()
    ensures { SavesFollow }
{}

/// And where the typed program's start or save has ended, that of the elaborated one has.
pub fn starts_and_saves_end()
    ensures installs { InstallsEnd }
    ensures upgrades { UpgradesEnd }
    ensures saves { SavesEnd }
{}

/// What elaborated programs do over a list of events, with calls, answers and upgrades, the typed programs do by the meaning, exhaustions deserved or not, at
/// no more than so many times the weight, three at least, and no deeper: where the names of these have their places, and their executions are sound.
pub fn elaborated_runs_are_kept()
    ensures runs { ElaboratedRunsKeep }
    ensures measured { MeasuredElaboratedRunsKeep }
{}
