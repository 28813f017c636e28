//! Lists of declarations are written out to typed ones.
ghost use Rattle.list_laws.specs.Laws.{ListsAreTyped};

/// A list whose declarations are typed wherever their names stand, and use names only where they stand, is typed in the order of evaluation.
pub fn lists_are_typed()
    ensures { ListsAreTyped }
{}
