//! The steps of modules.
use crate::validity::{Judged, judge};
use probe_base::Stop;
use std::alloc::{AllocError, Global};
use wasm_steps::ModuleLayout;

/// A line for what is known of each function, and then one for each step; or the fault.
pub(crate) fn lay_module(alloc: Global, bytes: &[u8]) -> Result<String, Stop> {
    match judge(alloc, bytes)? {
        Judged::Fault(text) => Ok(text),
        Judged::Valid(valid) => Ok(layout_text(alloc, valid.layout())?),
    }
}

fn layout_text(alloc: Global, layout: &ModuleLayout) -> Result<String, AllocError> {
    let mut out = String::new(alloc);
    for function in layout.functions.as_slice() {
        out.push_str(format!(in alloc; "{function:?}\n")?.as_str())?;
    }
    for step in layout.steps.as_slice() {
        out.push_str(format!(in alloc; "{step:?}\n")?.as_str())?;
    }
    Ok(out)
}
