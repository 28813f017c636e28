//! Names with what they stand for.
ghost use Rattle.std.specs.Prelude.{◌≡◌, ◌-◌, ◌∷◌, ◌++◌, [], List, ℕ, drop, length, option_map, OnOk, OnErr};
ghost use Rattle.mo_scopes.specs.Scopes.{named};
ghost use Rattle.value_scopes.specs.Labels.{first_looped};

use crate::scopes::Label;
use mo_num::Memory;
use std::alloc::Global;
use std::marker::Model;
use type_scopes::NamePlaces;

/// Names with what they stand for, which contracts see as a list of both, the innermost first. A name is found in constant time.
pub struct NameStack<T> {
    names: NamePlaces,
    items: Vec<T>,
}

// Written here, so that it is proved here, and not again in each crate that lets names go.
impl<T: Drop> Drop for NameStack<T> {
    fn drop(self) {
        let NameStack {
            names: _names,
            items: _items,
        } = self;
    }
}

impl<T> Model for NameStack<T> {
    ghost use Rattle.std.specs.Prelude.{◌≡◌, List, ℕ, length};
    ghost use Rattle.value_scopes.specs.Stacks.{stacked};

    ghost Value = { List (List ℕ × T) };

    ghost view = { λ s. stacked s.names s.items.items };

    ghost invariant = { λ s. length s.names ≡ length s.items.items };
}

impl<T> NameStack<T> {
    /// No names. Takes no memory.
    pub fn new(alloc: Global) -> Self
        ensures { result ≡ [] }
    {
        NameStack {
            names: NamePlaces::new(alloc),
            items: Vec::new(alloc),
        }
    }

    /// How many names there are.
    pub fn len(&self) -> usize
        ensures { result ≡ length self.now }
    {
        self.names.len()
    }

    /// What a name stands for, where it is there: Motoko language manual, section "Identifiers". The innermost of several hides the
    /// others.
    pub fn find(&self, name: &[u8]) -> Option<&T>
        ensures { option_map (λ t. t.now) result ≡ named self.now name.now }
    {
        match self.names.find(name) {
            None => None,
            Some(place) => Some(&self.items[place]),
        }
    }
}

impl<T: Drop> NameStack<T> {
    /// Adds a name, innermost, with what it stands for. After an error the names are as before.
    pub fn push(&mut self, name: &[u8], item: T) -> Result<(), Memory>
        ensures ok { OnOk result (self.new ≡ (name.now, item) ∷ self.old) }
        ensures err { OnErr result (self.new ≡ self.old) }
    {
        self.items.push(item)?;
        match self.names.push(name) {
            Ok(()) => Ok(()),
            Err(memory) => {
                self.items.pop();
                Err(memory)
            }
        }
    }

    /// Takes the innermost name away, if there is one.
    fn pop(&mut self)
        ensures { self.new ≡ drop 1 self.old }
    {
        self.names.pop();
        self.items.pop();
    }

    /// Keeps only the outermost names, so many. Costs the names that are taken away.
    pub fn truncate(&mut self, len: usize)
        ensures kept { self.new ≡ drop (length self.old - len) self.old }
        ensures back { (more before : List (List ℕ × T)) → self.old ≡ more ++ before → len ≡ length before → self.new ≡ before }
    {
        while self.len() > len {
            self.pop();
        }
    }
}

impl NameStack<Label> {
    /// Says of the innermost label whether it may be continued, and gives what was said before.
    pub fn set_loop(&mut self, is_loop: bool) -> bool
        ensures set { self.new ≡ first_looped is_loop self.old }
        ensures was { self.old ≡ first_looped result self.old }
    {
        let len = self.items.len();
        if len == 0 {
            return false;
        }
        let label = self.items[len - 1];
        self.items[len - 1] = Label { is_loop, ..label };
        label.is_loop
    }
}
