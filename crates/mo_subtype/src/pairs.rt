//! Pairs of types, and lists of them.
ghost use Rattle.std.specs.Prelude.{◌≡◌, ◌++◌, length, slice_get, ◌==◌};
ghost use Rattle.std.proofs.Common.{ap};
ghost use Rattle.std.specs.Option.{option_copied};
ghost use Rattle.std.specs.List.{list_any};
ghost use Rattle.std.specs.Hash as fed;
ghost use Rattle.mo_types.specs.Same.{decided_equivalence, decided_partial};
ghost use Rattle.mo_subtype.specs.Pairs.{fed_pair, pair_decides, same_pair};

use indexmap::IndexSet;
use mo_types::TypeId;
use std::hash::{Hash, Hasher};
use std::marker::Model;

/// The question whether `low` is a subtype of `high`.
#[derive(Clone, Copy, Debug)]
pub struct Pair<T = TypeId> {
    pub low: T,
    pub high: T,
}

impl PartialEq for Pair<TypeId> {
    ghost eq = { same_pair };

    ghost laws = { decided_partial pair_decides };

    fn eq(&self, other: &Pair<TypeId>) -> bool {
        self.low == other.low && self.high == other.high
    }
}

impl Eq for Pair<TypeId> {
    ghost laws = { decided_equivalence pair_decides };
}

impl Hash for Pair<TypeId> {
    ghost hash_input = { fed_pair };

    ghost respects_eq = { λ a b h. ap fed_pair ((pair_decides a b).0 h) };

    fn hash<H: Hasher>(&self, state: &mut H) {
        self.low.hash(state);
        self.high.hash(state);
    }
}

/// A list of pairs, none of them twice.
#[derive(Drop)]
pub struct Pairs {
    set: IndexSet<Pair>,
}

impl Model for Pairs {
    ghost use Rattle.std.specs.Prelude.{List};
    ghost use Rattle.mo_types.specs.declared.node.TypeId.{TypeId};
    ghost use Rattle.mo_subtype.specs.declared.pairs.Pair.{Pair};

    ghost Value = { List (Pair TypeId) };

    ghost view = { λ p. p.set.keys };
}

impl Pairs {
    /// The pairs of a set, in its order. Takes no memory.
    pub fn from_set(set: IndexSet<Pair>) -> Pairs
        ensures { result ≡ set.keys }
    {
        Pairs { set }
    }

    /// How many pairs there are.
    pub fn len(&self) -> usize
        ensures { result ≡ length self.now }
    {
        self.set.len()
    }

    /// Whether there are none.
    pub fn is_empty(&self) -> bool
        ensures { result ≡ (length self.now == 0) }
    {
        self.set.len() == 0
    }

    /// The pair at a place.
    pub fn get(&self, place: usize) -> Option<&Pair>
        ensures { option_copied result ≡ slice_get self.now place }
    {
        self.set.get_index(place)
    }

    /// Whether the pair is in the list.
    pub fn contains(&self, pair: Pair) -> bool
        ensures { result ≡ list_any (same_pair pair) self.now }
    {
        self.set.contains(&pair)
    }
}
