//! Lists of numbers with an index.
ghost use Rattle.std.specs.Prelude.{◌≡◌, ◌<◌, ℕ, length, nat_eq, IfOk, IfSome};
ghost use Rattle.indexmap.specs.IndexMap.{get};
ghost use Rattle.type_definitions.specs.Places.{first_place};

use indexmap::IndexMap;
use mo_num::{Memory, Sequence};
use std::alloc::Global;
use std::marker::Model;

/// A list of numbers, in which the first place of each is found in constant time.
pub struct Numbers {
    list: Sequence<u32>,
    places: IndexMap<u32, usize>,
}

// Written here, so that it is proved here, and not again in each crate that lets such lists go.
impl Drop for Numbers {
    fn drop(self) {
        let Numbers {
            list: _list,
            places: _places,
        } = self;
    }
}

impl Model for Numbers {
    ghost use Rattle.std.specs.Prelude.{◌≡◌, List, ℕ, nat_eq};
    ghost use Rattle.indexmap.specs.IndexMap.{get};
    ghost use Rattle.type_definitions.specs.Places.{first_place};

    ghost Value = { List ℕ };

    ghost view = { λ n. n.list };

    ghost invariant = { λ n. (p : ℕ) → get nat_eq n.places p ≡ first_place n.list p };
}

/// The first place of each number.
fn places_of(alloc: Global, list: &[u32]) -> Result<IndexMap<u32, usize>, Memory>
    ensures { IfOk result (λ places. (p : ℕ) → get nat_eq places p ≡ first_place list.now p) }
{
    let mut places = IndexMap::new(alloc);
    let mut place = list.len();
    while place > 0 {
        place -= 1;
        places.insert(list[place], place)?;
    }
    Ok(places)
}

impl Numbers {
    /// The list of these numbers.
    pub fn new(alloc: Global, list: Sequence<u32>) -> Result<Numbers, Memory>
        ensures { IfOk result (λ made. made ≡ list) }
    {
        let places = places_of(alloc, list.as_slice())?;
        Ok(Numbers { list, places })
    }

    /// The numbers.
    pub fn as_slice(&self) -> &[u32]
        ensures { result.now ≡ self.now }
    {
        self.list.as_slice()
    }

    /// The first place of a number.
    pub fn find(&self, number: u32) -> Option<usize>
        ensures { result ≡ first_place self.now number }
    {
        self.places.get(&number).copied()
    }
}
