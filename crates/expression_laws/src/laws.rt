//! What is written out is typed.
ghost use Rattle.expression_laws.specs.Laws.{FormsAreTyped};

/// Over a graph of the types that are met and of `()`, an expression whose parts become typed trees wherever they stand becomes one, of each form that
/// `PartsAre` lists.
pub fn forms_are_typed()
    ensures { FormsAreTyped }
{}
