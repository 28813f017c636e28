//! Which types a program meets.
ghost use Rattle.meeting_laws.specs.Laws.{TypesOfProgramsAreLawful};

/// All types of a program that is typed are lawful.
pub fn types_of_programs_are_lawful()
    ensures { TypesOfProgramsAreLawful }
{}
