//! What stands directly before a place in a text.

/// What stands directly before a place, as far as the reading of `<`, `>` and `#` depends on it.
#[derive(Clone, Copy)]
pub enum Before {
    /// A space, tab, carriage return or newline.
    Blank,
    /// The end of an identifier, a literal or a closing bracket.
    Operand,
    /// Nothing, the end of a comment, or the end of any other token.
    Other,
}
