//! Each expression of a program is written out to a typed tree.
ghost use Rattle.source_laws.specs.Numbers.{DefinitionsAreGathered};
ghost use Rattle.source_laws.specs.Laws.{ExpressionsAreTyped, ListsAreReady};

/// An expression that is judged becomes a typed tree wherever it stands, where the front end has seen to its tokens and names.
pub fn expressions_are_typed()
    ensures { ExpressionsAreTyped }
{}

/// So do the parts of each declaration of a list.
pub fn lists_are_ready()
    ensures { ListsAreReady }
{}

/// Definitions and type parameters whose numbers differ each stand under their number.
pub fn definitions_are_gathered()
    ensures { DefinitionsAreGathered }
{}
