//! Pairs of types.
ghost use Rattle.std.specs.Prelude.{◌≡◌};
ghost use Rattle.std.proofs.Common.{ap};
ghost use Rattle.std.specs.Hash as fed;
ghost use Rattle.mo_types.specs.Same.{decided_equivalence, decided_partial};
ghost use Rattle.candid_equal.specs.Pairs.{fed_pair, pair_decides, same_pair};
ghost use Rattle.candid_equal.specs.Refs.{ref_number};

use mo_types::TableRef;
use std::hash::{Hash, Hasher};

/// The question whether a type of a header is equal to a declared one, by its number among the Candid types of a graph.
#[derive(Clone, Copy, Debug)]
pub struct Pair {
    pub wire: TableRef,
    pub declared: usize,
}

/// A number that no other reference has.
fn ref_number(reference: TableRef) -> u64
    ensures { result ≡ ref_number reference }
{
    match reference {
        TableRef::Plainly(plain) => plain.code() as u64,
        TableRef::At(index) => index as u64 + 256,
    }
}

impl PartialEq for Pair {
    ghost eq = { same_pair };

    ghost laws = { decided_partial pair_decides };

    fn eq(&self, other: &Pair) -> bool {
        ref_number(self.wire) == ref_number(other.wire) && self.declared == other.declared
    }
}

impl Eq for Pair {
    ghost laws = { decided_equivalence pair_decides };
}

impl Hash for Pair {
    ghost hash_input = { fed_pair };

    ghost respects_eq = { λ a b h. ap fed_pair ((pair_decides a b).0 h) };

    fn hash<H: Hasher>(&self, state: &mut H) {
        ref_number(self.wire).hash(state);
        self.declared.hash(state);
    }
}
