//! The forms of types.
ghost use Rattle.std.specs.Prelude.{◌≡◌};

use mo_num::{Bytes, Kind, Sequence};

/// A type of a graph, by its number there.
#[derive(Clone, Copy, Debug, PartialEq, Eq, Hash)]
pub struct TypeId {
    pub(crate) index: u32,
}

impl TypeId {
    /// The number. Those of one graph are 0, 1, and so on.
    pub fn index(self) -> u32
        ensures { result ≡ self.index }
    {
        self.index
    }
}

/// How a function is called: Motoko language manual, section "Functions".
#[derive(Clone, Copy, Debug, PartialEq, Eq)]
pub enum Sort {
    Local,
    Shared,
    Query,
}

/// A field of an object, a method of an actor, or a tag of a variant. Only fields of objects are ever mutable.
#[derive(Drop)]
pub struct Field<T = TypeId> {
    pub label: Bytes,
    pub mutable: bool,
    pub part: T,
}

/// The head of a type, with the types of its parts: Motoko language manual, section "Types".
#[derive(Drop)]
pub enum Node<T = TypeId> {
    Number(Kind),
    Bool,
    Char,
    Text,
    Blob,
    Principal,
    Error,
    Null,
    /// The type above all.
    Any,
    /// The type below all, `None`.
    Bottom,
    /// `?T`.
    Opt(T),
    /// `[T]`.
    Array(T),
    /// `[var T]`.
    MutArray(T),
    /// No type or at least two. One type in parentheses is that type itself.
    Tuple(Sequence<T>),
    Object(Sequence<Field<T>>),
    Actor(Sequence<Field<T>>),
    Variant(Sequence<Field<T>>),
    /// Parameters and results. Those of `shared A -> async B` are `A` and `B`, without the `async`.
    Func(Sort, Sequence<T>, Sequence<T>),
    /// `async T`.
    Async(T),
    /// A type parameter: a number of its own, and its bound.
    Variable(u32, T),
}
