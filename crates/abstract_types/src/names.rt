//! Names with their places.
use mo_num::Bytes;

/// A name, and the number of the token that it is. Tokens are counted from 0.
pub struct PlacedName {
    pub at: u32,
    pub bytes: Bytes,
}

// Written here, so that it is proved here, and not again in each crate that lets a name go.
impl Drop for PlacedName {
    fn drop(self) {
        let PlacedName {
            at: _at,
            bytes: _bytes,
        } = self;
    }
}
