//! What lists of declarations are written out to, declaration by declaration.
ghost use Rattle.block_laws.specs.Laws.{BodiesAreMade, ListsAreMade, ListsAreSigned, ListsAreWalked, OrdersAreMade};

/// The signatures of a list bind the names of its functions and classes to the types that are written, which are types of the graph.
pub fn lists_are_signed()
    ensures { ListsAreSigned }
{}

/// Each declaration of a list that is evaluated in order is written out to a typed one wherever it stands, and the list has the type of its last expression.
pub fn orders_are_made()
    ensures { OrdersAreMade }
{}

/// Behind that each function and class of the list is written out to a typed function, and each declaration stands at its own place.
pub fn bodies_are_made()
    ensures { BodiesAreMade }
{}

/// So each declaration of a whole list is written out to a typed one, wherever the list stands.
pub fn lists_are_made()
    ensures { ListsAreMade }
{}

/// A whole list that was judged, whose names differ and are used where they stand, is typed in the order of evaluation.
pub fn lists_are_walked()
    ensures { ListsAreWalked }
{}
