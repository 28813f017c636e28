//! What a judged program is written out to.
ghost use Rattle.well_typed_laws.specs.WellTyped.{NumbersAreOfTypes, ProgramsAreWellTyped};

/// A tree that is typed is written out to a well-typed program.
pub fn programs_are_well_typed()
    ensures { ProgramsAreWellTyped }
{}

/// A type that has a number in a graph is one of the graph: so each type at a node of such a program is, since each is one of the graph by its number.
pub fn numbers_are_of_types()
    ensures { NumbersAreOfTypes }
{}
