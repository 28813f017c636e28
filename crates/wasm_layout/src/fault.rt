//! Why a module is not laid out.
ghost use Rattle.std.specs.Prelude.{◌≡◌};
ghost use Rattle.wasm_layout.specs.declared.fault.LayoutFault.TheVariants.{Memory};

use thiserror::Error;

/// Why there is no layout.
#[derive(Clone, Copy, Debug, PartialEq, Eq, Error)]
pub enum LayoutFault {
    /// A place, or the number of a function's locals, might not fit 32 bits.
    #[error("the code, or the locals of a function, may be more than 32 bits count")]
    TooLarge,
    #[error("there was no memory")]
    Memory,
}

impl From<mo_num::Memory> for LayoutFault {
    ghost from_gives = { λ _ e. e ≡ Memory };

    fn from(_memory: mo_num::Memory) -> LayoutFault {
        LayoutFault::Memory
    }
}
