//! Why a source has no tokens.
ghost use Rattle.std.specs.Prelude.{◌≡◌};
ghost use Rattle.mo_lexer.specs.Faults.{place_of};

use thiserror::Error;

/// Why a source has no tokens: the first fault that is met from left to right, with its place in bytes from 0.
#[derive(Clone, Copy, Debug, PartialEq, Eq, Error)]
pub enum LexFault {
    /// The byte begins no token, or is not UTF-8.
    #[error("the byte at {0} begins no token, or is not UTF-8")]
    BadByte(u32),
    /// The comment that opens here is not closed.
    #[error("the comment that opens at byte {0} is not closed")]
    OpenComment(u32),
    /// The text or character that opens here is not closed.
    #[error("the text or character that opens at byte {0} is not closed")]
    OpenText(u32),
    /// The `\` here begins no escape.
    #[error("the backslash at byte {0} begins no escape")]
    BadEscape(u32),
    /// The number here is 2^64 or more.
    #[error("the number at byte {0} is 2^64 or more")]
    WideNumber(u32),
    /// The source has more than 1,048,576 bytes. Its place is 0.
    #[error("the source has more than 1048576 bytes")]
    SourceTooLong,
    /// There was no memory for the tokens.
    #[error("there was no memory")]
    Memory,
}

impl LexFault {
    /// The place of the fault. Want of memory has none.
    pub fn place(&self) -> Option<u32>
        ensures { result ≡ place_of self.now }
    {
        match self {
            LexFault::BadByte(place)
            | LexFault::OpenComment(place)
            | LexFault::OpenText(place)
            | LexFault::BadEscape(place)
            | LexFault::WideNumber(place) => Some(*place),
            LexFault::SourceTooLong => Some(0),
            LexFault::Memory => None,
        }
    }
}
