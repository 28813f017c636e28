//! A list of parts of a tree.
ghost use Rattle.std.specs.Prelude.{◌≡◌, ◌==◌, ◌++◌, ◌∷◌, List, [], length, OnOk, OnErr};

use mo_num::Memory;
use std::alloc::Global;
use std::marker::Model;

/// A list of parts of a tree, which contracts see as the list of their values. A tree may hold itself through it.
pub struct Items<T> {
    list: Vec<T>,
}

// Written here, so that it is proved here, and not again in each crate that lets items go.
impl<T: Drop> Drop for Items<T> {
    fn drop(self) {
        let Items { list: _list } = self;
    }
}

impl<T> Model for Items<T> {
    ghost use Rattle.std.specs.Coded.{coded_list};
    ghost use Rattle.std.specs.Prelude.{List};

    ghost Value = { List T };

    ghost coded = { coded_list T.code };

    ghost view = { λ s. s.list.items };
}

impl<T> Items<T> {
    /// No items. Takes no memory.
    pub fn new(alloc: Global) -> Self
        ensures { result ≡ [] }
    {
        Items {
            list: Vec::new(alloc),
        }
    }

    /// The items as a slice.
    pub fn as_slice(&self) -> &[T]
        ensures { result.now ≡ self.now }
    {
        self.list.as_slice()
    }

    /// How many items there are.
    pub fn len(&self) -> usize
        ensures { result ≡ length self.now }
    {
        self.list.len()
    }

    /// Whether there are none.
    pub fn is_empty(&self) -> bool
        ensures { result ≡ (length self.now == 0) }
    {
        self.list.is_empty()
    }

    /// Adds an item at the end. After an error the items are unchanged, and the item is dropped.
    pub fn push(&mut self, item: T) -> Result<(), Memory>
    where
        T: Drop,
        ensures ok { OnOk result (self.new ≡ self.old ++ item ∷ []) }
        ensures err { OnErr result (self.new ≡ self.old) }
    {
        self.list.push(item)?;
        Ok(())
    }
}
