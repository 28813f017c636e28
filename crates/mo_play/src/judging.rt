//! Which bytes are a module that can be played.
ghost use Rattle.std.specs.Prelude.{◌≡◌, IfOk, IfErr};
ghost use Rattle.mo_play.specs.Modules.{IsModule, IsJudged, Judged, unread_fault};

use std::alloc::Global;
use thiserror::Error;
use wasm_read::{ReadFault, read};
use wasm_tree::{Module, Rule};
use wasm_valid::{Valid, ValidFault, validate};

/// Why bytes are no valid module.
#[derive(Clone, Copy, Debug, PartialEq, Eq, Error)]
pub enum ModuleFault {
    /// They spell no module; the fault is not want of memory.
    #[error("the bytes spell no module: {0}")]
    Read(ReadFault),
    /// They spell a module that breaks this rule.
    #[error("a rule of validation is broken: {0:?}")]
    Valid(Rule),
}

/// Why there is no module to be played.
#[derive(Clone, Copy, Debug, PartialEq, Eq, Error)]
pub enum JudgeFault {
    /// The bytes are no valid module.
    #[error("{0}")]
    Bad(ModuleFault),
    /// There was no memory.
    #[error("there was no memory")]
    Memory,
}

// The module, where it keeps the rules.
fn valid(alloc: Global, tree: Module) -> Result<Valid, JudgeFault>
    ensures { Judged tree result }
{
    match validate(alloc, tree) {
        Ok(valid) => Ok(valid),
        Err(ValidFault::Memory) => Err(JudgeFault::Memory),
        Err(ValidFault::Broken { rule, .. }) => Err(JudgeFault::Bad(ModuleFault::Valid(rule))),
    }
}

fn unread(fault: ReadFault) -> JudgeFault
    ensures { result ≡ unread_fault fault }
{
    match fault {
        ReadFault::Memory => JudgeFault::Memory,
        other => JudgeFault::Bad(ModuleFault::Read(other)),
    }
}

/// The module that the bytes spell, where it is valid; or why there is none. WebAssembly Core 1.0, sections 3 and 5.
pub fn judge(alloc: Global, bytes: &[u8]) -> Result<Valid, JudgeFault>
    ensures ok { IfOk result (λ m. IsModule bytes.now m) }
    ensures bad { IfErr result (λ fault. IsJudged bytes.now fault) }
{
    match read(alloc, bytes) {
        Ok(tree) => valid(alloc, tree),
        Err(fault) => Err(unread(fault)),
    }
}
