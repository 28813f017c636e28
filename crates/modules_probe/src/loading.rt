//! What a module finds when it is loaded.
use crate::number::short_number_of;
use crate::validity::{Judged, judge};
use mo_num::Bytes;
use probe_base::Stop;
use std::alloc::{AllocError, Global};
use wasm_instance::{Instance, Limits};
use wasm_valid::Valid;

/// For each module, loaded in turn in place of the one before: the refusal or `loaded`, and then the sizes of memory and
/// table, each run of equal bytes other than 0 by its place, its length and the byte, each entry that is not empty by its
/// place and its function, and each global. At most so many pages of memory are there.
pub(crate) fn load_modules(alloc: Global, pages: &[u8], modules: &[Bytes]) -> Result<String, Stop> {
    let pages = short_number_of(pages)?;
    if pages > 65_536 {
        return Err(Stop::Usage);
    }
    let limits = Limits {
        steps: 0,
        pages,
        stack: 0,
    };
    let mut instance = Instance::new(alloc, limits)?;
    let mut out = String::new(alloc);
    for module in modules {
        load_module(alloc, &mut out, &mut instance, module.as_slice())?;
    }
    Ok(out)
}

fn load_module(
    alloc: Global,
    out: &mut String,
    instance: &mut Instance,
    bytes: &[u8],
) -> Result<(), AllocError> {
    match judge(alloc, bytes)? {
        Judged::Fault(text) => out.push_str(text.as_str()),
        Judged::Valid(valid) => {
            load_valid(alloc, out, instance, &valid)?;
            put_state(alloc, out, instance)
        }
    }
}

fn load_valid(
    alloc: Global,
    out: &mut String,
    instance: &mut Instance,
    valid: &Valid,
) -> Result<(), AllocError> {
    match instance.load(valid) {
        Ok(()) => out.push_str("loaded\n"),
        Err(refusal) => out.push_str(format!(in alloc; "{refusal:?}\n")?.as_str()),
    }
}

fn put_state(alloc: Global, out: &mut String, instance: &Instance) -> Result<(), AllocError> {
    put_memory(alloc, out, instance.memory())?;
    put_table(alloc, out, instance.table())?;
    put_globals(alloc, out, instance.globals())
}

fn put_memory(alloc: Global, out: &mut String, bytes: &[u8]) -> Result<(), AllocError> {
    let pages = bytes.len() / 65_536;
    out.push_str(format!(in alloc; "memory of {pages} pages\n")?.as_str())?;
    let mut run: Option<(usize, usize, u8)> = None;
    for (place, byte) in bytes.iter().enumerate() {
        run = match run {
            Some((first, count, same)) if same == *byte => {
                Some((first, count.saturating_add(1), same))
            }
            other => {
                put_run(alloc, out, other)?;
                Some((place, 1, *byte))
            }
        };
    }
    put_run(alloc, out, run)
}

// A run of equal bytes by its place, its length and the byte.
fn put_run(
    alloc: Global,
    out: &mut String,
    run: Option<(usize, usize, u8)>,
) -> Result<(), AllocError> {
    match run {
        Some((_, _, 0)) | None => Ok(()),
        Some((place, count, byte)) => {
            out.push_str(format!(in alloc; "bytes {place} {count} {byte}\n")?.as_str())
        }
    }
}

fn put_table(alloc: Global, out: &mut String, table: &[Option<u32>]) -> Result<(), AllocError> {
    let len = table.len();
    out.push_str(format!(in alloc; "table of {len} entries\n")?.as_str())?;
    for (place, entry) in table.iter().enumerate() {
        if let Some(function) = entry {
            out.push_str(format!(in alloc; "entry {place} {function}\n")?.as_str())?;
        }
    }
    Ok(())
}

fn put_globals(alloc: Global, out: &mut String, globals: &[u64]) -> Result<(), AllocError> {
    for global in globals {
        out.push_str(format!(in alloc; "global 0x{global:x}\n")?.as_str())?;
    }
    Ok(())
}
