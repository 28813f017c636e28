//! Brackets, and the room that what stands in them may take.
use mo_syntax::Mark;

/// An open bracket, or the whole text, and the room that may be taken by what stands in it.
#[derive(Clone, Copy)]
pub struct Bracket {
    /// The mark that closes the bracket. None closes the whole text.
    pub close: Option<Mark>,
    /// Of constructs that began since the bracket opened or the last separator directly in it.
    pub begun: u32,
    /// Of the last operand since then, which calls and the like may still go on with.
    pub operand: u32,
    /// The most of an operand before that one.
    pub operands: u32,
    /// The most of what stands before that separator.
    pub ended: u32,
}
