//! Why a program is not typed.
ghost use Rattle.std.specs.Prelude.{◌≡◌};
ghost use Rattle.mo_check.specs.Checked.{fault_by, memory_fault};

use crate::names::condition_text;
use mo_num::Memory;
use thiserror::Error;
use type_judgements::Refusal;
use typing_rules::Condition;

/// Why a program is not typed.
#[derive(Clone, Copy, Debug, PartialEq, Eq, Error)]
pub enum TypeFault {
    /// The condition is false at the node whose first token has this number, from 0 on.
    #[error("{text} at token {place}", text = condition_text(*.condition))]
    False { place: u32, condition: Condition },
    /// There was no memory.
    #[error("there was no memory")]
    Memory,
}

impl From<Memory> for TypeFault {
    ghost from_gives = { λ _ made. made ≡ memory_fault };

    fn from(_: Memory) -> Self {
        TypeFault::Memory
    }
}

impl From<Refusal> for TypeFault {
    ghost from_gives = { λ refusal made. made ≡ fault_by refusal };

    fn from(refusal: Refusal) -> Self {
        match refusal {
            Refusal::False(place, condition) => TypeFault::False { place, condition },
            Refusal::Memory => TypeFault::Memory,
        }
    }
}
