//! What the front end shows of a source.
ghost use Rattle.expression_sources.specs.Laws.{ProgramsAreSources, TypesOfTreesAreLawful};

/// A tree in which no rule on names is broken is a source whose types are lawful where it is typed.
pub fn programs_are_sources()
    ensures { ProgramsAreSources }
{}

/// So all types of a tree that is typed are lawful.
pub fn types_of_trees_are_lawful()
    ensures { TypesOfTreesAreLawful }
{}
