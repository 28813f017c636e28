//! Why a type cannot be met.
ghost use Rattle.std.specs.Prelude.{◌≡◌};
ghost use Rattle.met_types.specs.Faults.{from_graph, memory_fault};

use mo_num::Memory;
use mo_types::TypesFault;
use std::alloc::{AllocError, AllocFailed};
use thiserror::Error;

/// Why a type cannot be met.
#[derive(Clone, Copy, Debug, PartialEq, Eq, Error)]
pub enum MeetFault {
    /// The types that are met reach more than 4,096 types, or more than 65,536 fields and parts.
    #[error("the types have more than 4096 nodes, or more than 65536 fields and parts")]
    TooManyTypes,
    #[error("there was no memory")]
    Memory,
}

impl From<Memory> for MeetFault {
    ghost from_gives = { λ _ fault. fault ≡ memory_fault };

    fn from(_: Memory) -> Self {
        MeetFault::Memory
    }
}

impl From<AllocError> for MeetFault {
    ghost from_gives = { λ _ fault. fault ≡ memory_fault };

    fn from(_: AllocError) -> Self {
        MeetFault::Memory
    }
}

impl<T: Drop> From<AllocFailed<T>> for MeetFault {
    ghost from_gives = { λ _ fault. fault ≡ memory_fault };

    fn from(_: AllocFailed<T>) -> Self {
        MeetFault::Memory
    }
}

impl From<TypesFault> for MeetFault {
    ghost from_gives = { λ of fault. fault ≡ from_graph of };

    fn from(fault: TypesFault) -> Self {
        match fault {
            TypesFault::TooManyTypes => MeetFault::TooManyTypes,
            TypesFault::Memory => MeetFault::Memory,
        }
    }
}
