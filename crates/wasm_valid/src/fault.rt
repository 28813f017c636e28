//! Why a module is not valid.
ghost use Rattle.std.specs.Prelude.{◌≡◌};
ghost use Rattle.wasm_valid.specs.declared.fault.Fault.TheVariants.{Memory};

use thiserror::Error;
use wasm_tree::Rule;

/// Why a module could not be validated.
#[derive(Clone, Copy, Debug, PartialEq, Eq, Error)]
pub enum ValidFault {
    /// The rule is broken: in the function with this index, imported ones counted, or outside the functions.
    #[error("a rule of validation is broken: {rule:?}, in function {function:?}")]
    Broken { function: Option<u32>, rule: Rule },
    /// There was no memory for the validation.
    #[error("there was no memory")]
    Memory,
}

/// Why a part of a module could not be validated.
#[derive(Clone, Copy, Debug, PartialEq, Eq)]
pub(crate) enum Fault {
    Broken(Rule),
    Memory,
}

impl From<mo_num::Memory> for Fault {
    ghost from_gives = { λ _ e. e ≡ Memory };

    fn from(_: mo_num::Memory) -> Fault {
        Fault::Memory
    }
}
