//! Values that are written in a program.
use mo_num::{Bytes, Principal};

/// A value that is written in a program: Motoko language manual, section "Literals". The kind of a number is that of the
/// type of the node that it stands in.
pub enum Literal {
    /// `()`
    Unit,
    Null,
    Flag(bool),
    /// Within the range of its kind.
    Number(i128),
    /// A Unicode scalar value.
    Character(u32),
    /// UTF-8.
    Text(Bytes),
    Blob(Bytes),
    /// `actor "id"`
    Actor(Principal),
}

// Written here, so that it is proved here, and not again in each crate that lets an expression go.
impl Drop for Literal {
    fn drop(self) {
        match self {
            Literal::Unit => {}
            Literal::Null => {}
            Literal::Flag(_flag) => {}
            Literal::Number(_number) => {}
            Literal::Character(_scalar) => {}
            Literal::Text(_text) => {}
            Literal::Blob(_bytes) => {}
            Literal::Actor(_principal) => {}
        }
    }
}
