//! From a source to the bytes of its module.
ghost use Rattle.std.specs.Prelude.{◌≡◌, List, IfOk, IsErrOf};
ghost use Rattle.mo_command.specs.Built.{IsAccepted, IsModuleOf};
ghost use Rattle.mo_command.specs.declared.compile.CompileFault.TheVariants.{Memory as no_memory};

use mo_num::{Bytes, Memory};
use query_module::build_queries;
use query_source::{SourceFault, read_source};
use std::alloc::Global;
use thiserror::Error;

/// Why a source gives no module.
#[derive(Clone, Copy, Debug, PartialEq, Eq, Error)]
pub enum CompileFault {
    /// The source is not of the form that is compiled yet.
    #[error("the source is not of the form that is compiled yet")]
    NotYet,
    /// There was no memory.
    #[error("there was no memory")]
    Memory,
}

impl From<Memory> for CompileFault {
    ghost from_gives = { λ _ fault. fault ≡ no_memory };

    fn from(_: Memory) -> Self {
        CompileFault::Memory
    }
}

/// The bytes of the source's module. NotYet comes exactly where the source is not that of an actor of constant queries.
pub fn compile(alloc: Global, source: &[u8]) -> Result<Bytes, CompileFault>
    ensures module { IfOk result (λ bytes. IsModuleOf source.now bytes) }
    ensures not_yet { IsErrOf result CompileFault.NotYet → IsAccepted source.now → ⊥ }
{
    match read_source(alloc, source) {
        Ok(methods) => Ok(build_queries(alloc, methods.as_slice())?),
        Err(SourceFault::NotYet) => Err(CompileFault::NotYet),
        Err(SourceFault::Memory) => Err(CompileFault::Memory),
    }
}
