//! The law of formed programs.
ghost use Rattle.formed_cores.specs.Laws.{NamedProgramsWithinMeasuresAreFormed};

/// A program in which all that is named is there, with its methods under names of their own, and whose bodies keep within their measures is formed.
pub fn named_programs_within_measures_are_formed()
    ensures { NamedProgramsWithinMeasuresAreFormed }
{}
