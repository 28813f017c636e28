//! Whether modules are valid.
use probe_base::Stop;
use std::alloc::{AllocError, Global};
use wasm_read::read;
use wasm_valid::{Valid, validate};

/// What bytes are: a valid module, or none for the fault of this text.
#[derive(Drop)]
pub(crate) enum Judged {
    Valid(Valid),
    Fault(String),
}

/// Reads and validates.
pub(crate) fn judge(alloc: Global, bytes: &[u8]) -> Result<Judged, AllocError> {
    match read(alloc, bytes) {
        Err(fault) => Ok(Judged::Fault(format!(in alloc; "{fault:?}\n")?)),
        Ok(module) => match validate(alloc, module) {
            Err(fault) => Ok(Judged::Fault(format!(in alloc; "{fault:?}\n")?)),
            Ok(valid) => Ok(Judged::Valid(valid)),
        },
    }
}

/// `valid`, or the fault.
pub(crate) fn validate_module(alloc: Global, bytes: &[u8]) -> Result<String, Stop> {
    match judge(alloc, bytes)? {
        Judged::Valid(_) => Ok(String::from_str(alloc, "valid\n")?),
        Judged::Fault(text) => Ok(text),
    }
}
