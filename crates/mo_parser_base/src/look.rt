//! What the next token is.
use mo_syntax::{Mark, Word};

/// What a token is, without the value that it carries.
#[derive(Clone, Copy)]
pub enum Look {
    /// No token: the end.
    End,
    /// An identifier.
    Identifier,
    /// A number.
    Number,
    /// A character.
    Character,
    /// A text.
    Text,
    /// A reserved word.
    Reserved(Word),
    /// An operator or mark.
    Mark(Mark),
}
