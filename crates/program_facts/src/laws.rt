//! Programs whose names are bound.
ghost use Rattle.program_facts.specs.Laws.{ProgramsAreInOrder, ProgramsAreNamed, ProgramsAreSources, ProgramsAreWholeSources, TokensAreWritten};

/// A program whose names are bound, and whose characters are Unicode scalar values, is all that is asked of a source that is to be written out to a typed program.
pub fn programs_are_sources()
    ensures { ProgramsAreSources }
{}

/// Its declarations are judged to be ones in which each function has a place behind all that it uses, and nothing is used before its place.
pub fn programs_are_in_order()
    ensures { ProgramsAreInOrder }
{}

/// The numbers of the labels of its public functions differ, and those of its stable variables; a public function has a name that a method may have, and not one
/// that is reserved; and each system function is one that there may be, and is there once at most.
pub fn programs_are_named()
    ensures { ProgramsAreNamed }
{}

/// So it is all that is asked of the source of a whole program.
pub fn programs_are_whole_sources()
    ensures { ProgramsAreWholeSources }
{}

/// The characters in the tokens of a source that is lexed and parsed are Unicode scalar values, and its names are such that a method may have.
pub fn tokens_are_written()
    ensures { TokensAreWritten }
{}
