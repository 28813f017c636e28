//! Closed values of shareable types.
use mo_num::{Bytes, Principal, Sequence};

/// The outermost part of a value. The values inside it come after it, so that values of any depth are a flat list.
#[derive(Drop)]
pub enum Datum {
    /// `null`, of a type `Null` or of an option.
    Null,
    Flag(bool),
    Number(i128),
    Char(u32),
    Text(Bytes),
    Blob(Bytes),
    Principal(Principal),
    Actor(Principal),
    /// A shared function: an actor and the name of its method.
    Method(Principal, Bytes),
    /// `?v`, and v inside it.
    Present,
    /// An array of so many items.
    Many(u32),
    /// A tuple's parts, or an object's fields in the rising order of the numbers of their labels. At `Any` it has none.
    Record(u32),
    /// The tag at this place of the type, in the rising order of the numbers of the labels, and its value inside it.
    Tag(u32),
}

/// Values, each part before the parts inside it.
pub struct Data {
    pub parts: Sequence<Datum>,
}

// Written here, so that it is proved here, and not again in each crate that lets values go.
impl Drop for Data {
    fn drop(self) {
        let Data { parts: _parts } = self;
    }
}
