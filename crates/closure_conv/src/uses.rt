//! Which of the values that a group sees are used.
ghost use Rattle.std.specs.Prelude.{◌≡◌, [], length, OnOk};
ghost use Rattle.core_ir.specs.Choices.{nth};
ghost use Rattle.core_laws.specs.Conversion.{index};
ghost use Rattle.core_laws.specs.Uses.{with_use};

use indexmap::IndexSet;
use mo_num::Memory;
use std::alloc::Global;
use std::marker::Model;

/// Places of values that are used, in the order of their first uses.
pub(crate) struct Uses {
    places: IndexSet<u32>,
}

impl Drop for Uses {
    fn drop(self) {
        let Uses { places: _places } = self;
    }
}

impl Model for Uses {
    ghost use Rattle.std.specs.Prelude.{List, ℕ};

    ghost Value = { List ℕ };

    ghost view = { λ u. u.places.keys };
}

impl Uses {
    // None. Takes no memory.
    pub(crate) fn new(alloc: Global) -> Uses
        ensures { result ≡ [] }
    {
        Uses {
            places: IndexSet::new(alloc),
        }
    }

    // A use of the value at this place.
    pub(crate) fn add(&mut self, place: u32) -> Result<(), Memory>
        ensures { OnOk result (self.new ≡ with_use place self.old) }
    {
        self.places.insert(place)?;
        Ok(())
    }

    // As how many of the used values the one at this place stands; one that is not used stands behind all.
    pub(crate) fn index(&self, place: u32) -> usize
        ensures { result ≡ index place self.now }
    {
        match self.places.get_index_of(&place) {
            Some(index) => index,
            None => self.places.len(),
        }
    }

    // How many there are.
    pub(crate) fn len(&self) -> usize
        ensures { result ≡ length self.now }
    {
        self.places.len()
    }

    // The places.
    pub(crate) fn as_slice(&self) -> &[u32]
        ensures { result.now ≡ self.now }
    {
        self.places.as_slice()
    }
}

/// The places that the group with this number needs of those that it sees; a group that is not there needs none.
pub(crate) fn needed(needs: &[Uses], group: u32) -> &[u32]
    ensures { result.now ≡ nth [] needs.now group }
{
    match needs.get(group as usize) {
        Some(used) => used.as_slice(),
        None => &[],
    }
}
