//! Types at nodes.
ghost use Rattle.tree_types.specs.TypesAt.{TypesAreThere};

/// The type at each node of a well-typed program is one of its graph. A name that a `let` binds is no such node: a future has one too.
pub fn types_are_there()
    ensures { TypesAreThere }
{}
