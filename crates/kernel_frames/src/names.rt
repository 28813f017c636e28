//! The names around an expression.
ghost use Rattle.std.specs.Prelude.{◌≡◌, ◌+◌, ◌≤◌, ◌∷◌, ◌++◌, [], List, IfOk, OnOk};
ghost use Rattle.desugaring.specs.Frames as frames;
ghost use Rattle.kernel_frames.specs.Places.{Cuts, IsMark, IsUse, kept_in};

use mo_num::Memory;
use std::alloc::Global;
use std::marker::Model;
use value_scopes::NameStack;

/// A name at its place, counted from the outermost, which is one of a cell or not.
#[derive(Clone, Copy)]
pub(crate) struct ValuePlace {
    pub(crate) place: u32,
    pub(crate) is_cell: bool,
}

/// How many names stand between the use of a name and its own place, and whether it is one of a cell.
#[derive(Clone, Copy)]
pub struct Use {
    pub index: u32,
    pub is_cell: bool,
}

/// How many names there were.
#[derive(Clone, Copy)]
pub struct Mark {
    all: u32,
    values: usize,
    kept: usize,
}

/// The names, which contracts see as a list of entries, the nearest first. A name is found in constant time.
pub(crate) struct Names {
    all: u32,
    values: NameStack<ValuePlace>,
    kept: NameStack<u32>,
}

// Written here, so that it is proved once.
impl Drop for Names {
    fn drop(self) {
        let Names {
            all: _all,
            values: _values,
            kept: _kept,
        } = self;
    }
}

impl Model for Names {
    ghost use Rattle.std.specs.Prelude.{List};
    ghost use Rattle.desugaring.specs.Frames.{Entry};
    ghost use Rattle.kernel_frames.specs.Places.{ArePlaces, entries};

    ghost Value = { List Entry };

    ghost view = { λ n. entries n.all n.values n.kept };

    ghost invariant = { λ n. ArePlaces (entries n.all n.values n.kept) n.all n.values n.kept };
}

/// One more. There are never so many names that their number is none of 32 bits.
fn one_more(all: u32) -> Result<u32, Memory>
    ensures { IfOk result (λ more. more ≡ all + 1) }
{
    match all.checked_add(1) {
        Some(more) => Ok(more),
        None => Err(Memory),
    }
}

/// How many names stand between, where there are so many and the name has this place.
fn between(all: u32, place: u32) -> u32
    requires { place + 1 ≤ all }
    ensures { result + (place + 1) ≡ all }
{
    all - (place + 1)
}

impl Names {
    /// No names. Takes no memory.
    pub(crate) fn new(alloc: Global) -> Names
        ensures { result ≡ [] }
    {
        Names {
            all: 0,
            values: NameStack::new(alloc),
            kept: NameStack::new(alloc),
        }
    }

    /// Where the name is: Motoko language manual, section "Identifiers". The nearest of several hides the others.
    pub(crate) fn find(&self, name: &[u8]) -> Use
        ensures { IsUse self.now name.now result }
    {
        match self.values.find(name) {
            Some(found) => Use {
                index: between(self.all, found.place),
                is_cell: found.is_cell,
            },
            None => Use {
                index: self.all,
                is_cell: false,
            },
        }
    }

    /// Where what was kept of the stable variable of this name is.
    pub(crate) fn find_kept(&self, name: &[u8]) -> u32
        ensures { result ≡ kept_in self.now name.now }
    {
        match self.kept.find(name) {
            Some(place) => between(self.all, *place),
            None => self.all,
        }
    }

    /// Adds a name, the nearest, which is one of a cell or not.
    pub(crate) fn push_value(&mut self, name: &[u8], is_cell: bool) -> Result<(), Memory>
        ensures { OnOk result (self.new ≡ frames.Named name.now is_cell ∷ self.old) }
    {
        let place = self.all;
        let more = one_more(place)?;
        self.values.push(name, ValuePlace { place, is_cell })?;
        self.all = more;
        Ok(())
    }

    /// Adds what was kept of the stable variable of this name.
    pub(crate) fn push_kept(&mut self, name: &[u8]) -> Result<(), Memory>
        ensures { OnOk result (self.new ≡ frames.Kept name.now ∷ self.old) }
    {
        let place = self.all;
        let more = one_more(place)?;
        self.kept.push(name, place)?;
        self.all = more;
        Ok(())
    }

    /// Adds what no name is found by.
    pub(crate) fn push_unnamed(&mut self) -> Result<(), Memory>
        ensures { OnOk result (self.new ≡ frames.Unnamed ∷ self.old) }
    {
        self.all = one_more(self.all)?;
        Ok(())
    }

    /// How many names there are now.
    pub(crate) fn mark(&self) -> Mark
        ensures { IsMark result self.now }
    {
        Mark {
            all: self.all,
            values: self.values.len(),
            kept: self.kept.len(),
        }
    }

    /// Takes the nearest names away, so that as many are left as there were.
    pub(crate) fn truncate(&mut self, mark: Mark)
        requires { Cuts mark self.old }
        ensures { (more before : List frames.Entry) → self.old ≡ more ++ before → IsMark mark before → self.new ≡ before }
    {
        self.values.truncate(mark.values);
        self.kept.truncate(mark.kept);
        self.all = mark.all;
    }
}
