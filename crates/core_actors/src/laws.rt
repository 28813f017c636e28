//! Passes keep whole actors.
ghost use Rattle.core_actors.specs.Laws.{ConversionKeeps, ConversionKeepsRuns, PassesKeep, PassesKeepRuns, SplittingKeeps, SplittingKeepsRuns};

/// The actor of a converted program keeps to that of the program, under each invariant by which that does not break: in single executions,
/// and over each list of events, upgrades between several programs among them, at the same weight and depth, exhaustions deserved or not.
pub fn conversion_keeps_actors<Kept>()
    ensures keeps { ConversionKeeps Kept }
    ensures runs { ConversionKeepsRuns Kept }
{}

/// So does the actor of a program that was split and converted, at no more than twice the weight and no greater depth.
pub fn passes_keep_actors<Kept>()
    ensures keeps { PassesKeep Kept }
    ensures runs { PassesKeepRuns Kept }
{}

/// So does the actor of a split program, at no more than twice the weight and no greater depth.
pub fn splitting_keeps_actors<Kept>()
    ensures keeps { SplittingKeeps Kept }
    ensures runs { SplittingKeepsRuns Kept }
{}
