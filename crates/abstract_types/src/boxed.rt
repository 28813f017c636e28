//! A part on the heap.
ghost use Rattle.std.specs.Prelude.{◌≡◌, IfOk};

use mo_num::Memory;
use std::alloc::Global;
use std::marker::Model;

/// A part on the heap, which contracts see as the part itself. A tree may hold itself through it.
pub struct Boxed<T> {
    inner: Box<T>,
}

// Written here, so that it is proved here, and not again in each crate that lets a part go.
impl<T: Drop> Drop for Boxed<T> {
    fn drop(self) {
        let Boxed { inner: _inner } = self;
    }
}

impl<T> Model for Boxed<T> {
    ghost Value = { T };

    ghost coded = { T.code };

    ghost view = { λ b. b.inner.value };
}

impl<T> Boxed<T> {
    /// The part.
    pub fn get(&self) -> &T
        ensures { result.now ≡ self.now }
    {
        &self.inner
    }

    /// The part, off the heap. Takes no memory.
    pub fn into_inner(self) -> T
        ensures { result ≡ self }
    {
        let Boxed { inner } = self;
        Box::into_inner(inner)
    }
}

impl<T: Drop> Boxed<T> {
    /// The part, on the heap.
    pub fn new(alloc: Global, inner: T) -> Result<Boxed<T>, Memory>
        ensures { IfOk result (λ made. made ≡ inner) }
    {
        Ok(Boxed {
            inner: Box::new(alloc, inner)?,
        })
    }
}
