//! The law of names.
ghost use Rattle.elaboration_names.specs.Names.{ProgramsAreNamed};

/// In an elaborated program whose actions have their operands, all that is named is there: names and labels, the names of the actor, and groups, each of
/// which makes those before it alone; and each action has its operands.
pub fn elaborated_programs_are_named()
    ensures { ProgramsAreNamed }
{}
