//! Laws of the machine.
ghost use Rattle.machine_nesting.specs.Laws.{ActorsAreLight, NestedProgramsAreSized};

/// A program of which less stands open at once than it has nodes, and in which no function stands as a value, is one of which the next law speaks.
pub fn nested_programs_are_sized()
    ensures { NestedProgramsAreSized }
{}

/// In each execution of its actor no more labels and handlers stand open than it has cost, at any moment; where a body waits, no more ends of branches stand
/// open than it has nodes. Each event keeps what this rests on: the functions in the actor's values open less than they have nodes.
pub fn actors_are_light()
    ensures { ActorsAreLight }
{}
