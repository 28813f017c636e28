//! What a use of a name means.
use crate::library::{BuiltInType, Member};

/// What a use of a name means (Motoko language manual, "Identifiers"). A level is a place in the list of the values, types or loops that are in scope at the
/// use, counted from 0 and from the outermost scope.
#[derive(Clone, Copy, PartialEq, Eq)]
pub enum Meaning {
    /// The value at this level.
    Value(usize),
    /// A member of an imported module.
    Member(Member),
    /// The declared type, or the parameter of a type, at this level.
    Type(usize),
    /// A type that needs no declaration.
    BuiltIn(BuiltInType),
    /// The labelled expression at this level. The labels around a function have none in it.
    Loop(usize),
}
