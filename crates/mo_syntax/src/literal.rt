//! Literals.
use crate::text::Text;

/// A literal, as its value.
pub enum Literal {
    /// A number, without a sign.
    Number(u64),
    /// A character, as its Unicode scalar value.
    Character(u32),
    /// A text, as the bytes that it stands for.
    Text(Text),
    True,
    False,
    Null,
}

// Written here, so that it is proved here, and not again in each crate that lets a literal go.
impl Drop for Literal {
    fn drop(self) {
        match self {
            Literal::Number(_number) => {}
            Literal::Character(_character) => {}
            Literal::Text(_text) => {}
            Literal::True => {}
            Literal::False => {}
            Literal::Null => {}
        }
    }
}
