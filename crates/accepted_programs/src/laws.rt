//! Programs of trees whose names are bound.
ghost use Rattle.accepted_programs.specs.Laws.{GraphsOfTreesAreLawful, ProgramsOfSourcesAreWellTyped, ProgramsOfTreesAreWellTyped};

/// Where the names of a tree are bound, the graph of its program is lawful, and has each type that is met in it.
pub fn graphs_of_trees_are_lawful()
    ensures { GraphsOfTreesAreLawful }
{}

/// The program of such a tree is well typed.
pub fn programs_of_trees_are_well_typed()
    ensures { ProgramsOfTreesAreWellTyped }
{}

/// So is that of each source that is made of tokens which a tree spells whose names are bound.
pub fn programs_of_sources_are_well_typed()
    ensures { ProgramsOfSourcesAreWellTyped }
{}
