//! A part that several places of a program share.
ghost use Rattle.std.specs.Prelude.{◌≡◌, IfOk};

use mo_num::Memory;
use std::alloc::Global;
use std::marker::Model;
use std::rc::Rc;

/// A part that several places of a program share, so that each further one takes no memory. Contracts see the part alone.
pub struct Shared<T> {
    inner: Rc<T>,
}

// Written here, so that it is proved here, and not again in each crate that lets shared parts go.
impl<T: Drop> Drop for Shared<T> {
    fn drop(self) {
        let Shared { inner: _inner } = self;
    }
}

impl<T> Model for Shared<T> {
    ghost Value = { T };

    ghost coded = { T.code };

    ghost view = { λ s. s.inner.value };
}

impl<T> Shared<T> {
    /// The part.
    pub fn get(&self) -> &T
        ensures { result.now ≡ self.now }
    {
        self.inner.as_ref()
    }
}

impl<T: Drop> Shared<T> {
    /// The part, shared by no place yet.
    pub fn new(alloc: Global, part: T) -> Result<Shared<T>, Memory>
        ensures { IfOk result (λ made. made ≡ part) }
    {
        Ok(Shared {
            inner: Rc::new(alloc, part)?,
        })
    }

    /// The same part for a further place.
    pub fn share(&self) -> Result<Shared<T>, Memory>
        ensures { IfOk result (λ made. made ≡ self.now) }
    {
        Ok(Shared {
            inner: self.inner.clone()?,
        })
    }
}
