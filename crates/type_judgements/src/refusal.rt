//! Why a program is not typed.
ghost use Rattle.std.specs.Prelude.{◌≡◌};
ghost use Rattle.type_judgements.specs.Refusals.{memory, refused_by};

use met_types::MeetFault;
use mo_num::Memory;
use typing_rules::Condition;

/// Why a program is not typed.
#[derive(Clone, Copy)]
pub enum Refusal {
    /// The condition is false at the node whose first token has this number.
    False(u32, Condition),
    /// There was no memory.
    Memory,
}

impl From<Memory> for Refusal {
    ghost from_gives = { λ _ refusal. refusal ≡ memory };

    fn from(_: Memory) -> Self {
        Refusal::Memory
    }
}

impl From<MeetFault> for Refusal {
    ghost from_gives = { λ fault refusal. refusal ≡ refused_by fault };

    fn from(fault: MeetFault) -> Self {
        match fault {
            MeetFault::TooManyTypes => Refusal::False(0, Condition::TooManyTypes),
            MeetFault::Memory => Refusal::Memory,
        }
    }
}
