//! The translation of a module.
ghost use Rattle.std.specs.Prelude.{◌≡◌, ◌∷◌, [], Some, None, IfOk};
ghost use Rattle.low_ir.specs.Formed.{IsFormedModule};
ghost use Rattle.wasm_emit.specs.Emit.{begin};
ghost use Rattle.wasm_emit.specs.Compiled.{Compiles};

use crate::interface::{host_imports, types};
use crate::parts::{begin, exports, functions, globals};
use low_ir::{LowModule, copied};
use mo_num::{Bytes, Memory, Sequence};
use std::alloc::Global;
use wasm_tree::{DataSegment, ElementSegment, Limits, Module};

fn limits(alloc: Global, min: u32, max: Option<u32>) -> Result<Sequence<Limits>, Memory>
    ensures { IfOk result (λ limits. limits ≡ record { min = min; max = max } ∷ []) }
{
    let mut limits = Sequence::new(alloc);
    limits.push(Limits { min, max })?;
    Ok(limits)
}

fn elements(alloc: Global, table: &[u32]) -> Result<Sequence<ElementSegment>, Memory>
    ensures { IfOk result (λ elements. elements ≡ record { table = 0; offset = begin; functions = table.now } ∷ []) }
{
    let mut elements = Sequence::new(alloc);
    elements.push(ElementSegment {
        table: 0,
        offset: begin(alloc)?,
        functions: copied(alloc, table)?,
    })?;
    Ok(elements)
}

fn segments(alloc: Global, bytes: &[u8]) -> Result<Sequence<DataSegment>, Memory>
    ensures { IfOk result (λ segments. segments ≡ record { memory = 0; offset = begin; bytes = bytes.now } ∷ []) }
{
    let mut segments = Sequence::new(alloc);
    segments.push(DataSegment {
        memory: 0,
        offset: begin(alloc)?,
        bytes: Bytes::from_slice(alloc, bytes)?,
    })?;
    Ok(segments)
}

/// The module as WebAssembly: valid, with a spelling of at most a stated number of bytes for each of its parts, and with the same
/// executions, to the step, the stack word and the page. The answer is Memory only where there was no memory for the module.
/// WebAssembly Core 1.0, sections 3, 4 and 5.
pub fn to_wasm(alloc: Global, low: &LowModule) -> Result<Module, Memory>
    requires { IsFormedModule low.now }
    ensures { IfOk result (λ w. Compiles low.now w) }
{
    let entries = low.table.len() as u32;
    Ok(Module {
        types: types(alloc, low.types.as_slice())?,
        imports: host_imports(alloc)?,
        functions: functions(alloc, low.functions.as_slice())?,
        tables: limits(alloc, entries, Some(entries))?,
        memories: limits(alloc, low.pages, None)?,
        globals: globals(alloc, low.globals.as_slice())?,
        exports: exports(alloc, low.exports.as_slice())?,
        start: None,
        elements: elements(alloc, low.table.as_slice())?,
        segments: segments(alloc, low.bytes.as_slice())?,
    })
}
