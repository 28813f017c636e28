//! Names.
ghost use Rattle.std.specs.Prelude.{◌≡◌, IfOk};
ghost use Rattle.std.specs.Str.{bytes_eq};

use crate::place::Place;
use mo_num::{Bytes, Memory};
use std::alloc::Global;

/// A name, as its bytes, and where it stands in the source.
pub struct Name {
    pub bytes: Bytes,
    pub place: Place,
}

// Written here, so that it is proved here, and not again in each crate that lets a name go.
impl Drop for Name {
    fn drop(self) {
        let Name {
            bytes: _bytes,
            place: _place,
        } = self;
    }
}

impl Name {
    /// The name with these bytes.
    pub fn new(alloc: Global, place: Place, bytes: &[u8]) -> Result<Name, Memory>
        ensures { IfOk result (λ made. made ≡ record { bytes = bytes.now; place = place }) }
    {
        Ok(Name {
            bytes: Bytes::from_slice(alloc, bytes)?,
            place,
        })
    }

    /// The name once more, at its place.
    pub fn copy(&self, alloc: Global) -> Result<Name, Memory>
        ensures { IfOk result (λ made. made ≡ self.now) }
    {
        Name::new(alloc, self.place, self.bytes.as_slice())
    }

    /// The name at another place. Takes no memory.
    pub fn placed(self, place: Place) -> Name
        ensures { result ≡ record { bytes = self.bytes; place = place } }
    {
        let Name { bytes, place: _ } = self;
        Name { bytes, place }
    }

    /// Its bytes.
    pub fn as_slice(&self) -> &[u8]
        ensures { result.now ≡ self.now.bytes }
    {
        self.bytes.as_slice()
    }

    /// Where it stands.
    pub fn place(&self) -> Place
        ensures { result ≡ self.now.place }
    {
        self.place
    }

    /// Whether it is the other name too, be it at another place.
    pub fn same(&self, other: &Name) -> bool
        ensures { result ≡ bytes_eq self.now.bytes other.now.bytes }
    {
        self.bytes.as_slice() == other.bytes.as_slice()
    }
}
