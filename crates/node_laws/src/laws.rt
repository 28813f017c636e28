//! What is written out has at most four times as many nodes as what is written.
ghost use Rattle.node_laws.specs.Laws.{FunctionsAreCovered, ClassesAreCovered, ProgramsAreCovered};

/// The parameters and the body of a function have at most four times as many nodes as the patterns and the expression that they are written as.
pub fn functions_are_covered()
    ensures { FunctionsAreCovered }
{}

/// The declarations of a program, without the parameters and bodies of functions, have at most four times as many nodes as they are written with.
pub fn programs_are_covered()
    ensures { ProgramsAreCovered }
{}

/// The parameters of a class and the object that it makes have at most four times as many nodes as what is written.
pub fn classes_are_covered()
    ensures { ClassesAreCovered }
{}
