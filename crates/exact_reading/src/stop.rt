//! Why reading stops.
ghost use Rattle.std.specs.Prelude.{◌≡◌};
ghost use Rattle.exact_reading.specs.declared.stop.Stop.TheVariants.{Memory};

use std::alloc::{AllocError, AllocFailed};
use std::fmt::Display;
use thiserror::Error;

/// Why reading stopped: want of memory, or what the bytes show.
#[derive(Clone, Copy, Debug, PartialEq, Eq, Error)]
#[error_bound(F: Display)]
pub enum Stop<F> {
    /// There was no memory for what is read.
    #[error("there is no memory for what is read")]
    Memory,
    /// The first fault in reading order.
    #[error("{0}")]
    Fault(F),
}

impl<F> From<AllocError> for Stop<F> {
    ghost from_gives = { λ _ e. e ≡ Memory };

    fn from(_e: AllocError) -> Stop<F> {
        Stop::Memory
    }
}

impl<F, T: Drop> From<AllocFailed<T>> for Stop<F> {
    ghost from_gives = { λ _ e. e ≡ Memory };

    fn from(_e: AllocFailed<T>) -> Stop<F> {
        Stop::Memory
    }
}

impl<F> From<mo_num::Memory> for Stop<F> {
    ghost from_gives = { λ _ e. e ≡ Memory };

    fn from(_e: mo_num::Memory) -> Stop<F> {
        Stop::Memory
    }
}
