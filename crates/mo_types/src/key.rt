//! What the nodes of a graph are found by.
ghost use Rattle.std.proofs.Common.{ap};
ghost use Rattle.std.specs.Hash as fed;
ghost use Rattle.mo_types.specs.Keys.{fed_key, same_key};
ghost use Rattle.mo_types.specs.Keys.{key_decides};
ghost use Rattle.mo_types.specs.Same.{decided_equivalence, decided_partial};

use crate::Node;
use std::hash::{Hash, Hasher};

/// A type that `fresh` gave, by its number, or a node that `intern` was given.
#[derive(Drop)]
pub(crate) enum Key {
    Fresh(u32),
    Interned(Node),
}

impl PartialEq for Key {
    ghost eq = { same_key };

    ghost laws = { decided_partial key_decides };

    fn eq(&self, other: &Key) -> bool {
        match (self, other) {
            (Key::Fresh(a), Key::Fresh(b)) => *a == *b,
            (Key::Interned(a), Key::Interned(b)) => *a == *b,
            _ => false,
        }
    }
}

impl Eq for Key {
    ghost laws = { decided_equivalence key_decides };
}

impl Hash for Key {
    ghost hash_input = { fed_key };

    ghost respects_eq = { λ a b h. ap fed_key ((key_decides a b).0 h) };

    fn hash<H: Hasher>(&self, state: &mut H) {
        match self {
            Key::Fresh(number) => number.hash(state),
            Key::Interned(node) => node.hash(state),
        }
    }
}
