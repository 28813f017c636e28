//! What public and system functions find behind the declarations of their actor.
ghost use Rattle.ending_laws.specs.Ending.{ProgramsEnd, ShareableTypesAreSeen};

/// Behind the declarations each name that is bound in the actor stands, none is one of a future, and stable variables are cells of shareable types.
pub fn programs_end()
    ensures { ProgramsEnd }
{}

/// A type that may be sent may be sent in the graph.
pub fn shareable_types_are_seen()
    ensures { ShareableTypesAreSeen }
{}
