//! What stands around an expression while it is written out.
ghost use Rattle.std.specs.Prelude.{◌≡◌, ◌∷◌, ◌++◌, [], List, drop, IfOk, OnOk};
ghost use Rattle.desugaring.specs.Frames as frames;
ghost use Rattle.kernel_frames.specs.Leaves.{leaves, seen_exit};
ghost use Rattle.kernel_frames.specs.Places.{Cuts, IsMark, IsUse, frame};

use crate::exits::{Exit, Exits, Leaving};
use crate::names::{Mark, Names, Use};
use mo_num::{Bytes, Memory};
use std::alloc::Global;
use std::marker::Model;
use std::mem;

/// What stands around an expression, as contracts see it: the names, and what can be left.
pub struct Frames {
    alloc: Global,
    names: Names,
    exits: Exits,
}

// Written here, so that it is proved here, and not again in each crate that lets frames go.
impl Drop for Frames {
    fn drop(self) {
        let Frames {
            alloc: _alloc,
            names: _names,
            exits: _exits,
        } = self;
    }
}

impl Model for Frames {
    ghost use Rattle.desugaring.specs.Frames.{Frame};
    ghost use Rattle.kernel_frames.specs.Places.{frame};

    ghost Value = { Frame };

    ghost view = { λ f. frame f.names f.exits };
}

impl Frames {
    /// Nothing. Takes no memory.
    pub fn new(alloc: Global) -> Frames
        ensures { result ≡ frame [] [] }
    {
        Frames {
            alloc,
            names: Names::new(alloc),
            exits: Exits::new(alloc),
        }
    }

    /// Where the name is: Motoko language manual, section "Identifiers". The nearest of several hides the others.
    pub fn find(&self, name: &[u8]) -> Use
        ensures { IsUse self.now.names name.now result }
    {
        self.names.find(name)
    }

    /// How many names stand before what was kept of the stable variable of this name: Motoko language manual, section
    /// "Stability".
    pub fn find_kept(&self, name: &[u8]) -> u32
        ensures { result ≡ frames.kept_at self.now name.now }
    {
        self.names.find_kept(name)
    }

    /// How many exits stand between. It goes over them, and no more stand around an expression than it has levels.
    pub fn find_exit(&self, wanted: Leaving<'_>) -> u32
        ensures { result ≡ frames.exit self.now (leaves wanted.entry) }
    {
        self.exits.find(wanted)
    }

    /// Adds the name of a value, the nearest.
    pub fn push_value(&mut self, name: &[u8]) -> Result<(), Memory>
        ensures { OnOk result (self.new ≡ frames.with_entries (frames.value name.now ∷ []) self.old) }
    {
        self.names.push_value(name, false)
    }

    /// Adds the name of a cell, the nearest.
    pub fn push_cell(&mut self, name: &[u8]) -> Result<(), Memory>
        ensures { OnOk result (self.new ≡ frames.with_entries (frames.cell name.now ∷ []) self.old) }
    {
        self.names.push_value(name, true)
    }

    /// Adds the names of values, of which the first is the nearest.
    pub fn push_names(&mut self, names: &[Bytes]) -> Result<(), Memory>
        ensures { OnOk result (self.new ≡ frames.with_names names.now self.old) }
    {
        let mut left = names.len();
        while left > 0 {
            left -= 1;
            self.push_value(names[left].as_slice())?;
        }
        Ok(())
    }

    /// Adds what was kept of the stable variable of this name.
    pub fn push_kept(&mut self, name: &[u8]) -> Result<(), Memory>
        ensures { OnOk result (self.new ≡ frames.with_entries (frames.Kept name.now ∷ []) self.old) }
    {
        self.names.push_kept(name)
    }

    /// Adds what no name is found by.
    pub fn push_unnamed(&mut self) -> Result<(), Memory>
        ensures { OnOk result (self.new ≡ frames.with_entries (frames.Unnamed ∷ []) self.old) }
    {
        self.names.push_unnamed()
    }

    /// How many names there are now.
    pub fn mark(&self) -> Mark
        ensures { IsMark result self.now.names }
    {
        self.names.mark()
    }

    /// Takes the nearest names away, so that as many are left as there were.
    pub fn truncate(&mut self, mark: Mark)
        requires { Cuts mark self.old.names }
        ensures exits { self.new.exits ≡ self.old.exits }
        ensures names { (more before : List frames.Entry) → self.old.names ≡ more ++ before → IsMark mark before → self.new.names ≡ before }
    {
        self.names.truncate(mark);
    }

    /// Adds what can be left, the nearest.
    pub fn push_exit(&mut self, exit: Exit) -> Result<(), Memory>
        ensures { OnOk result (self.new ≡ frames.with_exit (seen_exit exit) self.old) }
    {
        self.exits.push(exit)
    }

    /// Takes away what was added last.
    pub fn pop_exit(&mut self)
        ensures { self.new ≡ frame self.old.names (drop 1 self.old.exits) }
    {
        self.exits.pop();
    }

    /// Goes into a function, of which nothing around it can be left, and gives what could be.
    pub fn enter_function(&mut self) -> Result<Exits, Memory>
        ensures { IfOk result (λ outer. (outer ≡ self.old.exits) × (self.new ≡ frame self.old.names (frames.Returned ∷ []))) }
    {
        let mut inner = Exits::new(self.alloc);
        inner.push(Exit::Returned)?;
        Ok(mem::replace(&mut self.exits, inner))
    }

    /// Goes out of a function, to what can be left there.
    pub fn leave_function(&mut self, outer: Exits)
        ensures { self.new ≡ frame self.old.names outer }
    {
        self.exits = outer;
    }
}
