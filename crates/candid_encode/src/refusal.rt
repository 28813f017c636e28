//! Why values are not written.
ghost use Rattle.std.specs.Prelude.{◌≡◌};
ghost use Rattle.candid_encode.specs.declared.refusal.Refusal.TheVariants.{Memory};

use candid_header::Stop;
use thiserror::Error;

/// Why values are not written.
#[derive(Clone, Copy, Debug, PartialEq, Eq, Error)]
pub enum Refusal {
    /// They are not values of these types.
    #[error("the values are not of these types")]
    OtherValues,
    #[error("there was no memory")]
    Memory,
}

impl From<mo_num::Memory> for Refusal {
    ghost from_gives = { λ _ e. e ≡ Memory };

    fn from(_e: mo_num::Memory) -> Refusal {
        Refusal::Memory
    }
}

/// Of what waits only memory can be short.
impl From<Stop> for Refusal {
    ghost from_gives = { λ _ e. e ≡ Memory };

    fn from(_e: Stop) -> Refusal {
        Refusal::Memory
    }
}
