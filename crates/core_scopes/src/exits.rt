//! The labels that can be left.
ghost use Rattle.std.specs.Prelude.{◌≡◌, ◌∷◌, ◌++◌, [], List, ℕ, length, slice_get, OnOk};

use crate::stack::Stack;
use mo_num::Memory;
use std::alloc::Global;
use std::marker::Model;

/// The labels of the source, the nearest first, each by how many labels of Core stand around it.
pub struct Exits {
    list: Stack<u32>,
}

// Written here, so that it is proved once.
impl Drop for Exits {
    fn drop(self) {
        let Exits { list: _list } = self;
    }
}

impl Model for Exits {
    ghost use Rattle.std.specs.Prelude.{List, ℕ};

    ghost Value = { List ℕ };

    ghost view = { λ e. e.list };
}

impl Exits {
    /// None. Takes no memory.
    pub(crate) fn new(alloc: Global) -> Exits
        ensures { result ≡ [] }
    {
        Exits {
            list: Stack::new(alloc),
        }
    }

    /// How many there are.
    pub(crate) fn len(&self) -> usize
        ensures { result ≡ length self.now }
    {
        self.list.len()
    }

    /// The one behind so many others.
    pub(crate) fn get(&self, index: usize) -> Option<u32>
        ensures { result ≡ slice_get self.now index }
    {
        self.list.get(index)
    }

    /// Adds one, the nearest.
    pub(crate) fn push(&mut self, around: u32) -> Result<(), Memory>
        ensures { OnOk result (self.new ≡ around ∷ self.old) }
    {
        self.list.push(around)
    }

    /// Takes the nearest away, so that as many are left as there were.
    pub(crate) fn truncate(&mut self, len: usize)
        ensures { (more before : List ℕ) → self.old ≡ more ++ before → len ≡ length before → self.new ≡ before }
    {
        self.list.truncate(len);
    }
}
