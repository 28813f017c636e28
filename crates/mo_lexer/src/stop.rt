//! How reading stops early.
use crate::fault::LexFault;
use mo_num::Memory;

/// How the reading of a text stops before its end.
#[derive(Clone, Copy, Debug, PartialEq, Eq)]
pub enum Stop {
    /// A fault is met, whatever comes behind it.
    Met(LexFault),
    /// The text ends within something. Where the source ends there too, this is its fault.
    AtEnd(LexFault),
    /// There was no memory.
    Memory,
}

impl From<Memory> for Stop {
    ghost use Rattle.std.specs.Prelude.{◌≡◌};
    ghost use Rattle.mo_lexer.specs.declared.stop.Stop.TheVariants as stops;

    ghost from_gives = { λ _ e. e ≡ stops.Memory };

    fn from(_: Memory) -> Self {
        Stop::Memory
    }
}
