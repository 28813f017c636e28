//! Principals.
ghost use Rattle.std.specs.Prelude.{◌≡◌, ◌<◌, ◌≤◌, List, ℕ, length, MatchOption};
ghost use Rattle.std.proofs.Common.{ap, sym};

use smallvec::SmallVec;
use std::alloc::Global;
use std::marker::Model;

/// A principal: IC interface specification, section "Principals". It has at most 29 bytes, and contracts see it as the
/// list of them. The bytes lie in the value itself, so that making and copying one takes no memory.
#[derive(PartialEq, Eq)]
pub struct Principal {
    list: SmallVec<u8, 29>,
}

// Written here, so that it is proved here, and not again in each crate that lets principals go.
impl Drop for Principal {
    fn drop(self) {
        let Principal { list: _list } = self;
    }
}

impl Model for Principal {
    ghost Value = { List ℕ };

    ghost view = { λ p. p.list.items };

    // The room never grows.
    ghost invariant = { λ p. (length p.list.items ≤ 29) × (p.list.capacity ≡ 29) };

    ghost inverse = { λ bytes. record { list = record { items = bytes; capacity = 29 } } };

    ghost inverse_ok = { λ p h. ap (λ c. record { list = record { items = p.list.items; capacity = c } }) (sym h.1) };
}

impl Principal {
    /// The bytes.
    pub fn bytes(&self) -> &[u8]
        ensures bytes { result.now ≡ self.now }
        ensures few { length result.now ≤ 29 }
    {
        self.list.as_slice()
    }

    /// The same principal again.
    pub fn copy(&self) -> Principal
        ensures { result ≡ self.now }
    {
        match SmallVec::from_slice(*self.list.allocator(), self.list.as_slice()) {
            Ok(list) => Principal { list },
            Err(_) => unreachable!(),
        }
    }
}

/// The principal of these bytes, or none where there are more than 29 of them. Takes no memory.
pub fn principal_of(alloc: Global, bytes: &[u8]) -> Option<Principal>
    ensures { MatchOption result (29 < length bytes.now) (λ p. (length bytes.now ≤ 29) × (p ≡ bytes.now)) }
{
    if bytes.len() > 29 {
        return None;
    }
    match SmallVec::from_slice(alloc, bytes) {
        Ok(list) => Some(Principal { list }),
        Err(_) => unreachable!(),
    }
}
