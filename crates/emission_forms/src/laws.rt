//! A law: the function does nothing, and its contract is a theorem.
ghost use Rattle.emission_forms.specs.Laws.{EmittedFunctionsAreFormed};

/// An emitted function is formed, where what its body uses is there and its literals and offsets can be spelled.
pub fn emitted_functions_are_formed()
    ensures { EmittedFunctionsAreFormed }
{}
