//! Why a graph refuses a type.
ghost use Rattle.std.specs.Prelude.{◌≡◌};
ghost use Rattle.mo_types.specs.Graph.{memory_fault};

use std::alloc::AllocFailed;
use thiserror::Error;

/// Why a graph refuses a type.
#[derive(Clone, Copy, Debug, PartialEq, Eq, Error)]
pub enum TypesFault {
    /// The graph would have more than 4,096 nodes, or more than 65,536 fields and parts.
    #[error("the types have more than 4096 nodes, or more than 65536 fields and parts")]
    TooManyTypes,
    #[error("there was no memory")]
    Memory,
}

impl<T: Drop> From<AllocFailed<T>> for TypesFault {
    ghost from_gives = { λ _ fault. fault ≡ memory_fault };

    fn from(_: AllocFailed<T>) -> Self {
        TypesFault::Memory
    }
}
