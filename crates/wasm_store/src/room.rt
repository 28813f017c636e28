//! Lists whose room is taken once.
ghost use Rattle.std.specs.Prelude.{◌≡◌, ◌<◌, ◌≤◌, ◌++◌, ◌∷◌, [], length, IfOk, slice_set};
ghost use Rattle.std.specs.Borrow.{Lends, Array, sem};
ghost use Rattle.std.specs.List.{refill};
ghost use Rattle.wasm_store.specs.contracts.room.Room.{the_row};

use std::alloc::{AllocError, Global};
use std::marker::Model;

/// A list of at most `MOST` items, which contracts see as the list of their values. All room is taken when it is made.
#[derive(Drop)]
pub struct Room<T, const MOST: usize> {
    list: Vec<T>,
}

impl<T, const MOST: usize> Model for Room<T, MOST> {
    ghost use Rattle.std.specs.Prelude.{◌≤◌, List};
    ghost use Rattle.std.specs.Vec.{vec_len, vec_capacity};

    ghost Value = { List T };

    ghost view = { λ r. r.list.items };

    ghost invariant = { λ r. (vec_len r.list ≤ MOST) × (MOST ≤ vec_capacity r.list) };
}

impl<T, const MOST: usize> Room<T, MOST> {
    /// No items, and room for all.
    pub fn new(alloc: Global) -> Result<Self, AllocError>
        ensures { IfOk result (λ room. room ≡ []) }
    {
        Ok(Room {
            list: Vec::with_capacity(alloc, MOST)?,
        })
    }

    /// The items.
    pub fn as_slice(&self) -> &[T]
        ensures value { result.now ≡ self.now }
        ensures few { length self.now ≤ MOST }
    {
        self.list.as_slice()
    }
}

impl<T: Copy, const MOST: usize> Room<T, MOST> {
    /// The items, to be written. Their number stays.
    pub fn as_mut_slice(&mut self) -> &mut [T]
        ensures* written { sem 𝓛 (Lends (the_row T.row MOST.row) (Array T.row 0) self.entry result (refill (length self.old) self.old)) }
        ensures value { result.now ≡ self.old }
        ensures few { length self.old ≤ MOST }
    {
        self.list.as_mut_slice()
    }

    /// Writes the item at this place.
    pub fn set(&mut self, place: usize, item: T)
        requires { place < length self.old }
        ensures { self.new ≡ slice_set self.old place item }
    {
        self.list[place] = item;
    }

    /// Takes all items away.
    pub fn clear(&mut self)
        ensures { self.new ≡ [] }
    {
        self.list.clear();
    }

    /// Adds an item at the end.
    pub fn push(&mut self, item: T)
        requires { length self.old < MOST }
        ensures { self.new ≡ self.old ++ item ∷ [] }
    {
        self.list.push(item).unwrap();
    }

    /// Takes on the items of the other list.
    pub fn copy_from(&mut self, other: &Self)
        ensures { self.new ≡ other.now }
    {
        self.list.clear();
        self.list.extend_from_slice(other.list.as_slice()).unwrap();
    }
}
