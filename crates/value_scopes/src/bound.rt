//! What the names of values stand for.
ghost use Rattle.std.specs.Prelude.{◌≡◌, [], true, false};

use crate::stack::NameStack;
use mo_num::Sequence;
use std::alloc::Global;
use type_terms::TermId;

/// What the name of a value stands for: its type, whether it may be assigned to, and the type parameters of a function that has
/// such, each by the number of the token that is its name.
pub struct Bound {
    pub kind: TermId,
    pub mutable: bool,
    pub generics: Sequence<u32>,
}

// Written here, so that it is proved here, and not again in each crate that lets a scope go.
impl Drop for Bound {
    fn drop(self) {
        let Bound {
            kind: _kind,
            mutable: _mutable,
            generics: _generics,
        } = self;
    }
}

/// The values in scope.
pub type ValueScope = NameStack<Bound>;

impl Bound {
    /// A value that is not assigned to, of this type. Takes no memory.
    pub fn constant(alloc: Global, kind: TermId) -> Bound
        ensures { result ≡ record { kind = kind; mutable = false; generics = [] } }
    {
        Bound {
            kind,
            mutable: false,
            generics: Sequence::new(alloc),
        }
    }

    /// A variable of this type. Takes no memory.
    pub fn variable(alloc: Global, kind: TermId) -> Bound
        ensures { result ≡ record { kind = kind; mutable = true; generics = [] } }
    {
        Bound {
            kind,
            mutable: true,
            generics: Sequence::new(alloc),
        }
    }
}
