//! What is written out is typed.
ghost use Rattle.desugaring_laws.specs.Laws.{PatternsAreTyped};

/// Over a graph of the types that are met and of `()`, each pattern that is judged becomes one that is typed.
pub fn patterns_are_typed()
    ensures { PatternsAreTyped }
{}
