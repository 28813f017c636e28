//! A list with its nearest item last.
ghost use Rattle.std.specs.Prelude.{◌≡◌, ◌∷◌, ◌++◌, [], List, length, slice_get, OnOk};

use mo_num::Memory;
use std::alloc::Global;
use std::marker::Model;

/// Items, which contracts see as a list, the nearest first.
pub(crate) struct Stack<T> {
    list: Vec<T>,
}

// Written here, so that it is proved once.
impl<T: Drop> Drop for Stack<T> {
    fn drop(self) {
        let Stack { list: _list } = self;
    }
}

impl<T> Model for Stack<T> {
    ghost use Rattle.std.specs.Prelude.{List, reverse};

    ghost Value = { List T };

    ghost view = { λ s. reverse s.list.items };
}

impl<T> Stack<T> {
    /// No items. Takes no memory.
    pub(crate) fn new(alloc: Global) -> Self
        ensures { result ≡ [] }
    {
        Stack {
            list: Vec::new(alloc),
        }
    }

    /// How many there are.
    pub(crate) fn len(&self) -> usize
        ensures { result ≡ length self.now }
    {
        self.list.len()
    }
}

impl<T: Copy> Stack<T> {
    /// The one behind so many others.
    pub(crate) fn get(&self, index: usize) -> Option<T>
        ensures { result ≡ slice_get self.now index }
    {
        let len = self.list.len();
        if index < len {
            Some(self.list[len - 1 - index])
        } else {
            None
        }
    }

    /// Adds one, the nearest.
    pub(crate) fn push(&mut self, item: T) -> Result<(), Memory>
        ensures { OnOk result (self.new ≡ item ∷ self.old) }
    {
        self.list.push(item)?;
        Ok(())
    }

    /// Takes the nearest away, so that as many are left as there were.
    pub(crate) fn truncate(&mut self, len: usize)
        ensures { (more before : List T) → self.old ≡ more ++ before → len ≡ length before → self.new ≡ before }
    {
        self.list.truncate(len);
    }
}
