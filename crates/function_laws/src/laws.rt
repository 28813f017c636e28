//! Functions, calls and actor references are written out to typed trees.
ghost use Rattle.function_laws.specs.Laws.{CallsAreTyped, FunctionsAreTyped, ReferencesAreTyped};

/// A function without a name, whose body becomes a typed tree wherever it stands, becomes one.
pub fn functions_are_typed()
    ensures { FunctionsAreTyped }
{}

/// A call becomes a typed tree, also of a function with type parameters, which takes all its type arguments.
pub fn calls_are_typed()
    ensures { CallsAreTyped }
{}

/// An actor reference with its type becomes a typed tree.
pub fn references_are_typed()
    ensures { ReferencesAreTyped }
{}
