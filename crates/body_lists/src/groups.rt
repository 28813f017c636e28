//! The sizes of groups of functions.
ghost use Rattle.std.specs.Prelude.{◌≡◌, ◌++◌, ◌∷◌, [], OnOk};
ghost use Rattle.body_lists.specs.Known.{before_of, size_of};
ghost use Rattle.body_lists.specs.Counted.{all_of};

use mo_num::Memory;
use std::alloc::Global;
use std::marker::Model;

/// The sizes of the groups of a program in their order, which contracts see as their list. How many functions stand before a group is
/// known in constant time.
pub struct GroupSizes {
    groups: Vec<(u32, u32)>,
    all: u32,
}

impl Drop for GroupSizes {
    fn drop(self) {
        let GroupSizes {
            groups: _groups,
            all: _all,
        } = self;
    }
}

impl Model for GroupSizes {
    ghost use Rattle.std.specs.Prelude.{List, ℕ, map};
    ghost use Rattle.body_lists.specs.Counted.{AreCounted};

    ghost Value = { List ℕ };

    ghost view = { λ s. map (λ g. g.0) s.groups.items };

    ghost invariant = { λ s. AreCounted 0 s.groups.items s.all };
}

impl GroupSizes {
    /// No groups. Takes no memory.
    pub fn new(alloc: Global) -> GroupSizes
        ensures { result ≡ [] }
    {
        GroupSizes {
            groups: Vec::new(alloc),
            all: 0,
        }
    }

    /// Adds a group of so many functions.
    pub fn push(&mut self, size: u32) -> Result<(), Memory>
        ensures { OnOk result (self.new ≡ self.old ++ size ∷ []) }
    {
        let Some(all) = self.all.checked_add(size) else {
            return Err(Memory);
        };
        self.groups.push((size, self.all))?;
        self.all = all;
        Ok(())
    }

    /// How many functions the group has; one that is not there has none.
    pub fn size(&self, group: u32) -> u32
        ensures { result ≡ size_of self.now group }
    {
        match self.groups.get(group as usize) {
            Some(entry) => entry.0,
            None => 0,
        }
    }

    /// How many functions the groups before this one have.
    pub fn before(&self, group: u32) -> u32
        ensures { result ≡ before_of self.now group }
    {
        match self.groups.get(group as usize) {
            Some(entry) => entry.1,
            None => self.all,
        }
    }

    /// How many functions all groups have.
    pub fn all(&self) -> u32
        ensures { result ≡ all_of self.now }
    {
        self.all
    }
}
