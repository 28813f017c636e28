//! The order of lists as they are written and as they are made.
ghost use Rattle.order_laws.specs.Laws.{ListsAreInOrder};

/// A list of a block or object, whose names differ and in which nothing is used before it is defined, is judged to be one in which each function has a place
/// behind all that it uses, and nothing is used before its place.
pub fn lists_are_in_order()
    ensures { ListsAreInOrder }
{}
