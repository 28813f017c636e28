//! Modules that no bytes spell: their trees are made here.
use crate::number::short_number_of;
use mo_num::{Bytes, Memory, Sequence};
use probe_base::Stop;
use std::alloc::{AllocError, Global};
use wasm_tree::{Function, FunctionType, Locals, Module, Op, ValueType};
use wasm_valid::{Valid, ValidFault, validate};

/// The words of a frame with so many locals in each group, or why there is no such module.
pub(crate) fn validate_locals(alloc: Global, counts: &[Bytes]) -> Result<String, Stop> {
    let mut locals = Sequence::new(alloc);
    for count in counts {
        locals.push(Locals {
            count: short_number_of(count.as_slice())?,
            kind: ValueType::I32,
        })?;
    }
    let tree = module_of(alloc, locals, Sequence::new(alloc))?;
    Ok(verdict(alloc, validate(alloc, tree))?)
}

/// The same with so many an `end` in the body, of which none closes a block.
pub(crate) fn validate_ends(alloc: Global, count: &[u8]) -> Result<String, Stop> {
    let mut body = Sequence::new(alloc);
    for _ in 0..short_number_of(count)? {
        body.push(Op::End)?;
    }
    let tree = module_of(alloc, Sequence::new(alloc), body)?;
    Ok(verdict(alloc, validate(alloc, tree))?)
}

fn verdict(alloc: Global, verdict: Result<Valid, ValidFault>) -> Result<String, AllocError> {
    match verdict {
        Ok(valid) => {
            let words = valid.frame_words(0);
            format!(in alloc; "{words:?}\n")
        }
        Err(fault) => format!(in alloc; "{fault:?}\n"),
    }
}

// One function without parameters and results.
fn module_of(
    alloc: Global,
    locals: Sequence<Locals>,
    body: Sequence<Op>,
) -> Result<Module, Memory> {
    let mut types = Sequence::new(alloc);
    types.push(FunctionType {
        params: Sequence::new(alloc),
        results: Sequence::new(alloc),
    })?;
    let mut functions = Sequence::new(alloc);
    functions.push(Function {
        signature: 0,
        locals,
        body,
    })?;
    Ok(Module {
        types,
        imports: Sequence::new(alloc),
        functions,
        tables: Sequence::new(alloc),
        memories: Sequence::new(alloc),
        globals: Sequence::new(alloc),
        exports: Sequence::new(alloc),
        start: None,
        elements: Sequence::new(alloc),
        segments: Sequence::new(alloc),
    })
}
