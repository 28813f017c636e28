//! Each function here does nothing, and its contract is a law.
ghost use Rattle.operation_forms.specs.Laws.{CodesAreFormed, RoutinesAreFormed, SequencesAreFormed};

/// The code of a primitive is formed where its operands and locals are words and tests as it takes them, and the module has the types of
/// the routines.
pub fn codes_are_formed()
    ensures { CodesAreFormed }
{}

/// Code with more behind it is formed where both are.
pub fn sequences_are_formed()
    ensures { SequencesAreFormed }
{}

/// The routines of arithmetic that are called, and the one that ends the execution with a text, are formed.
pub fn routines_are_formed()
    ensures { RoutinesAreFormed }
{}
