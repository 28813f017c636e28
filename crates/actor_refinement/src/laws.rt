//! Laws of refinement, for any language that has such parts. The events are sound ones, of which a test may leave some out.
ghost use Rattle.mo_actor.specs.Languages.{language};
ghost use Rattle.actor_refinement.specs.Laws.{FewerEventsAreRefined, HostRunsAreActorRuns, IsLooserRefined, PassesCarryRefinement, RefinedSegmentsAreAlike, ScriptsAreSound, SimulationsRefine, any_exhaustion, no_exhaustion, spent_exhaustion};

/// The events of a script are sound, and an installation comes first or not at all.
pub fn scripts_are_sound()
    ensures { ScriptsAreSound }
{}

/// A module whose single executions come out as a program's do, from related states to related ones, does what the
/// program's actor does over every list of events. Who shows the former never meets numbers of incoming calls, starved
/// calls, ignored answers or the order of items.
pub fn simulations_refine<Store, Body, Waiting, Results, Value, Method, Kept>()
    ensures refines { SimulationsRefine (language Store Body Waiting Results Value Method Kept) any_exhaustion }
    ensures measured { SimulationsRefine (language Store Body Waiting Results Value Method Kept) spent_exhaustion }
    ensures unexhausted { SimulationsRefine (language Store Body Waiting Results Value Method Kept) no_exhaustion }
{}

/// Where each module of a list refines the program in its place, the host's run over the modules, with calls, queries,
/// replies, rejects and upgrades, is a run of the actors of the programs.
pub fn host_runs_are_actor_runs<Store, Body, Waiting, Results, Value, Method, Kept>()
    ensures runs { HostRunsAreActorRuns (language Store Body Waiting Results Value Method Kept) any_exhaustion }
    ensures measured { HostRunsAreActorRuns (language Store Body Waiting Results Value Method Kept) spent_exhaustion }
    ensures unexhausted { HostRunsAreActorRuns (language Store Body Waiting Results Value Method Kept) no_exhaustion }
{}

/// Told by lists of events: what refines begins as the program starts, from an installation and from each upgrade on, and then
/// gives over any calls and answers the items that the actor gives. Wherever it is asked to save, it comes to an end where the
/// program does, and the stable memory holds what the program keeps.
pub fn refined_segments_are_alike<Store, Body, Waiting, Results, Value, Method, Kept>()
    ensures refines { RefinedSegmentsAreAlike (language Store Body Waiting Results Value Method Kept) any_exhaustion }
    ensures measured { RefinedSegmentsAreAlike (language Store Body Waiting Results Value Method Kept) spent_exhaustion }
    ensures unexhausted { RefinedSegmentsAreAlike (language Store Body Waiting Results Value Method Kept) no_exhaustion }
{}

/// What refines for more events refines for fewer.
pub fn fewer_events_are_refined<Store, Body, Waiting, Results, Value, Method, Kept>()
    ensures refines { FewerEventsAreRefined (language Store Body Waiting Results Value Method Kept) any_exhaustion }
    ensures measured { FewerEventsAreRefined (language Store Body Waiting Results Value Method Kept) spent_exhaustion }
    ensures unexhausted { FewerEventsAreRefined (language Store Body Waiting Results Value Method Kept) no_exhaustion }
{}

/// What refines with deserved exhaustions refines; and what refines with none refines with deserved ones.
pub fn measured_refinement_is_refinement<Store, Body, Waiting, Results, Value, Method, Kept>()
    ensures refines { IsLooserRefined (language Store Body Waiting Results Value Method Kept) spent_exhaustion any_exhaustion }
    ensures unexhausted { IsLooserRefined (language Store Body Waiting Results Value Method Kept) no_exhaustion spent_exhaustion }
{}

/// A pass from one language to another carries refinement.
pub fn passes_carry_refinement<
    Store,
    Body,
    Waiting,
    Results,
    Value,
    Method,
    Kept,
    NewStore,
    NewBody,
    NewWaiting,
    NewResults,
    NewValue,
    NewMethod,
    NewKept,
>()
    ensures refines { PassesCarryRefinement (language Store Body Waiting Results Value Method Kept) (language NewStore NewBody NewWaiting NewResults NewValue NewMethod NewKept) any_exhaustion any_exhaustion }
    ensures measured { PassesCarryRefinement (language Store Body Waiting Results Value Method Kept) (language NewStore NewBody NewWaiting NewResults NewValue NewMethod NewKept) spent_exhaustion spent_exhaustion }
    ensures unexhausted { PassesCarryRefinement (language Store Body Waiting Results Value Method Kept) (language NewStore NewBody NewWaiting NewResults NewValue NewMethod NewKept) no_exhaustion no_exhaustion }
{}
