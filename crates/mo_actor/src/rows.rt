//! Rows of runs, computed: the items are those that the rules of actors and of their host ask.
ghost use Rattle.std.specs.Prelude.{◌≡◌, List, [], ◌∷◌, None};
ghost use Rattle.mo_actor.specs.AwaitRows.{await_rows};
ghost use Rattle.mo_actor.specs.CallRows.{call_rows};
ghost use Rattle.mo_actor.specs.CommandPrograms.{Source, program};
ghost use Rattle.mo_actor.specs.LimitRows.{exhausted, limit_rows, unfinished, wanted_exhaustions};
ghost use Rattle.mo_actor.specs.Programs.{IsSettled};
ghost use Rattle.mo_actor.specs.Rows.{answers, wanted};
ghost use Rattle.mo_actor.specs.Shares.{FirstMemories, HeapShare, OtherShares, StackShare, StepsShare};
ghost use Rattle.mo_actor.specs.UpgradeRows.{upgrade_rows};

/// The executions of the rows' programs stay as they are once they have ended, as the law on runs without exhaustions asks.
pub fn programs_of_rows_settle()
    ensures { (source : Source) → IsSettled (program source) }
{}

/// Numbers, rejections, traps, queries, the order of items.
pub fn calls_are_as_wanted()
    ensures { answers call_rows ≡ wanted call_rows }
{}

/// Commit points, answered and lost futures, dead activations, errors, answers that mean nothing.
pub fn awaits_are_as_wanted()
    ensures { answers await_rows ≡ wanted await_rows }
{}

/// Installations and upgrades.
pub fn upgrades_are_as_wanted()
    ensures { answers upgrade_rows ≡ wanted upgrade_rows }
{}

/// Exhausted events, and what the exhaustions had cost.
pub fn limits_are_as_wanted()
    ensures items { answers limit_rows ≡ wanted limit_rows }
    ensures exhaustions { exhausted limit_rows ≡ wanted_exhaustions }
    ensures unfinished { unfinished ≡ None ∷ None ∷ None ∷ [] }
{}

/// The shares of the limits at their borders.
pub fn shares_are_as_wanted()
    ensures steps { StepsShare }
    ensures stack { StackShare }
    ensures heap { HeapShare }
    ensures others { OtherShares }
    ensures first { FirstMemories }
{}
