//! A part of a tree.
ghost use Rattle.std.specs.Prelude.{◌≡◌, IfOk};

use crate::place::Place;
use mo_num::Memory;
use std::alloc::Global;
use std::marker::Model;

/// A part of a tree with its place in the source. Contracts see the part alone, so trees that differ in places only are equal there.
pub struct Node<T> {
    inner: Box<T>,
    place: Place,
}

// Written here, so that it is proved here, and not again in each crate that lets a part go.
impl<T: Drop> Drop for Node<T> {
    fn drop(self) {
        let Node {
            inner: _inner,
            place: _place,
        } = self;
    }
}

impl<T> Model for Node<T> {
    ghost Value = { T };

    ghost coded = { T.code };

    ghost view = { λ n. n.inner.value };
}

impl<T> Node<T> {
    /// The part.
    pub fn get(&self) -> &T
        ensures { result.now ≡ self.now }
    {
        &self.inner
    }

    /// Where it stands.
    pub fn place(&self) -> Place {
        self.place
    }

    /// The part, without its place. Takes no memory.
    pub fn into_inner(self) -> T
        ensures { result ≡ self }
    {
        let Node { inner, place: _ } = self;
        Box::into_inner(inner)
    }
}

impl<T: Drop> Node<T> {
    /// The part at a place.
    pub fn new(alloc: Global, place: Place, inner: T) -> Result<Node<T>, Memory>
        ensures { IfOk result (λ made. made ≡ inner) }
    {
        Ok(Node {
            inner: Box::new(alloc, inner)?,
            place,
        })
    }
}
