//! Each function here does nothing, and its contract is a law.
ghost use Rattle.module_forms.specs.Laws.{FunctionsAreFormed, ModulesAreFormed, ProgramsAreSmall, ProgramsAreSpelled};

/// The functions of the module of a program are formed, where its literals and offsets can be spelled.
pub fn functions_are_formed()
    ensures { FunctionsAreFormed }
{}

/// The module is formed, where its numbers and sizes are small.
pub fn modules_are_formed()
    ensures { ModulesAreFormed }
{}

/// The literals and offsets of a formed program that is treated can be spelled, where it is small.
pub fn programs_are_spelled()
    ensures { ProgramsAreSpelled }
{}

/// The module of such a program is small, where few routines and entries are added, and it is not too long.
pub fn programs_are_small()
    ensures { ProgramsAreSmall }
{}
