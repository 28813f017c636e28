//! How the reading of a rule stops early.
use mo_num::Memory;

/// How the reading of a rule stops early.
#[derive(Clone, Copy)]
pub enum Stop {
    /// The next token does not fit.
    Refused,
    /// There was no memory.
    Memory,
}

impl From<Memory> for Stop {
    ghost use Rattle.std.specs.Prelude.{◌≡◌};
    ghost use Rattle.mo_parser_base.specs.declared.stop.Stop.TheVariants as stops;

    ghost from_gives = { λ _ e. e ≡ stops.Memory };

    fn from(_: Memory) -> Self {
        Stop::Memory
    }
}
