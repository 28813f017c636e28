//! A stack of items.
ghost use Rattle.std.specs.Prelude.{◌≡◌, ◌∷◌, [], OnOk, MatchOption, length, slice_get};

use mo_num::Memory;
use std::alloc::Global;
use std::marker::Model;

/// A stack, which contracts see as the list of its items, the topmost first.
#[derive(Drop)]
pub struct Stack<T> {
    list: Vec<T>,
}

impl<T> Model for Stack<T> {
    ghost use Rattle.std.specs.Prelude.{reverse, List};

    ghost Value = { List T };

    ghost view = { λ s. reverse s.list.items };
}

impl<T> Stack<T> {
    /// No items. Takes no memory.
    pub fn new(alloc: Global) -> Self
        ensures { result ≡ [] }
    {
        Stack {
            list: Vec::new(alloc),
        }
    }

    /// How many items there are.
    pub fn len(&self) -> usize
        ensures { result ≡ length self.now }
    {
        self.list.len()
    }

    /// Puts an item on top.
    pub fn push(&mut self, item: T) -> Result<(), Memory>
    where
        T: Drop,
        ensures { OnOk result (self.new ≡ item ∷ self.old) }
    {
        self.list.push(item)?;
        Ok(())
    }

    /// Takes the topmost item off.
    pub fn pop(&mut self) -> Option<T>
        ensures { MatchOption result ((self.old ≡ []) × (self.new ≡ [])) (λ item. self.old ≡ item ∷ self.new) }
    {
        self.list.pop()
    }

    /// The item with so many others above it.
    pub fn get(&self, above: usize) -> Option<T>
    where
        T: Copy,
        ensures { result ≡ slice_get self.now above }
    {
        let count = self.list.len();
        if above < count {
            Some(self.list[count - 1 - above])
        } else {
            None
        }
    }
}
