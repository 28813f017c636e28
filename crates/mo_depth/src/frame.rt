//! Open brackets.
use mo_syntax::Mark;

/// An open bracket, or the whole text.
#[derive(Clone, Copy)]
pub struct Frame {
    /// The mark that closes the bracket. None closes the whole text.
    pub close: Option<Mark>,
    /// How many tokens count in it so far.
    pub count: usize,
}
