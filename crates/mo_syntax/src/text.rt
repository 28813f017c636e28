//! Texts.
ghost use Rattle.std.specs.Prelude.{◌≡◌, IfOk};

use crate::place::Place;
use mo_num::{Bytes, Memory};
use std::alloc::Global;

/// A text, as the bytes that it stands for, and where it stands in the source. The bytes are UTF-8 unless an escape of one
/// byte made them otherwise.
pub struct Text {
    pub bytes: Bytes,
    pub place: Place,
}

// Written here, so that it is proved here, and not again in each crate that lets a text go.
impl Drop for Text {
    fn drop(self) {
        let Text {
            bytes: _bytes,
            place: _place,
        } = self;
    }
}

impl Text {
    /// The text once more, at its place.
    pub fn copy(&self, alloc: Global) -> Result<Text, Memory>
        ensures { IfOk result (λ made. made ≡ self.now) }
    {
        Ok(Text {
            bytes: Bytes::from_slice(alloc, self.bytes.as_slice())?,
            place: self.place,
        })
    }

    /// The text at another place. Takes no memory.
    pub fn placed(self, place: Place) -> Text
        ensures { result ≡ record { bytes = self.bytes; place = place } }
    {
        let Text { bytes, place: _ } = self;
        Text { bytes, place }
    }

    /// Its bytes.
    pub fn as_slice(&self) -> &[u8]
        ensures { result.now ≡ self.now.bytes }
    {
        self.bytes.as_slice()
    }

    /// Where it stands.
    pub fn place(&self) -> Place
        ensures { result ≡ self.now.place }
    {
        self.place
    }
}
