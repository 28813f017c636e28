//! Modules, read and written again.
use probe_base::Stop;
use std::alloc::Global;
use wasm_read::read;
use wasm_write::write;

/// The module's shortest bytes, in hexadecimal digits, or the fault.
pub(crate) fn write_module(alloc: Global, bytes: &[u8]) -> Result<String, Stop> {
    match read(alloc, bytes) {
        Err(fault) => Ok(format!(in alloc; "{fault:?}\n")?),
        Ok(module) => {
            let written = write(alloc, &module)?;
            let mut out = hex::encode(alloc, written.as_slice())?;
            out.push('\n')?;
            Ok(out)
        }
    }
}
