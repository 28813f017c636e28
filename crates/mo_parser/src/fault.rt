//! Why tokens have no tree.
use mo_num::Memory;
use thiserror::Error;

/// Why tokens have no tree, with a place in bytes from 0.
#[derive(Clone, Copy, Debug, PartialEq, Eq, Error)]
pub enum ParseFault {
    /// The depth of the token that starts here passes 400, and no earlier one's does.
    #[error("the token at byte {0} stands in more than 400 open constructs")]
    TooDeep(u32),
    /// No tree spells the tokens. The place is where a token starts, where the last one ends, or 0.
    #[error("no program goes on with the token at byte {0}")]
    Syntax(u32),
    /// There was no memory for the tree, or there might be none on the native stack for the reading: more than 1,000 constructs may be open
    /// at a token.
    #[error("there was no memory")]
    Memory,
}

impl From<Memory> for ParseFault {
    ghost use Rattle.std.specs.Prelude.{◌≡◌};
    ghost use Rattle.mo_parser.specs.declared.fault.ParseFault.TheVariants as faults;

    ghost from_gives = { λ _ e. e ≡ faults.Memory };

    fn from(_: Memory) -> Self {
        ParseFault::Memory
    }
}
