//! A law: the function does nothing, and its contract is a theorem, for any language that has such parts.
ghost use Rattle.mo_actor.specs.Languages.{language};
ghost use Rattle.actor_refinement.specs.Laws.{any_exhaustion, no_exhaustion, spent_exhaustion};
ghost use Rattle.low_refinement.specs.Laws.{LowSimulationsRefine};

/// A formed low module whose single executions (installation, upgrade, methods, callbacks, cleanups, saving) come out as those of a
/// program, from related states to related ones, becomes a module that refines the program: over every list of events, under all
/// limits. Who shows the former never meets WebAssembly.
pub fn low_simulations_refine<Store, Body, Waiting, Results, Value, Method, Kept>()
    ensures refines { LowSimulationsRefine (language Store Body Waiting Results Value Method Kept) any_exhaustion }
    ensures measured { LowSimulationsRefine (language Store Body Waiting Results Value Method Kept) spent_exhaustion }
    ensures unexhausted { LowSimulationsRefine (language Store Body Waiting Results Value Method Kept) no_exhaustion }
{}
