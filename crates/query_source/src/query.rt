//! Constant queries, and why a source has none.
ghost use Rattle.std.specs.Prelude.{◌≡◌};
ghost use Rattle.query_source.specs.declared.query.SourceFault.TheVariants.{Memory as NoMemory};

use mo_num::{Bytes, Memory, Sequence};
use thiserror::Error;

/// A query method that takes nothing and answers a constant natural number.
/// Motoko language manual, sections Declaration syntax and Declaration fields.
#[derive(Drop)]
pub struct Method {
    /// The method's name: one to 32 ASCII letters, and no reserved word.
    pub name: Bytes,
    /// What the method answers, below 2^63.
    pub number: u64,
}

/// The methods of a source, in its order.
pub type Methods = Sequence<Method>;

/// Why a source gives no methods.
#[derive(Clone, Copy, Debug, PartialEq, Eq, Error)]
pub enum SourceFault {
    /// The source is not of the form that is compiled yet.
    #[error("the source is not of the form that is compiled yet")]
    NotYet,
    /// There was no memory for the methods.
    #[error("there was no memory")]
    Memory,
}

impl From<Memory> for SourceFault {
    ghost from_gives = { λ _ fault. fault ≡ NoMemory };

    fn from(_: Memory) -> Self {
        SourceFault::Memory
    }
}
