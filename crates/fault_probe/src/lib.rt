//! The command of `mo_probe` on faults: what each variant of a type of faults says of itself.
#![tactic(auto)]

mod of_bytes;
mod of_sources;

use mo_num::Bytes;
use probe_base::Stop;
use std::alloc::{AllocError, Global};
use std::fmt::Display;

// A line for each fault.
fn lines<F: Display>(alloc: Global, faults: &[F]) -> Result<String, AllocError> {
    let mut out = String::new(alloc);
    for fault in faults {
        out.push_str(format!(in alloc; "{fault}\n")?.as_str())?;
    }
    Ok(out)
}

/// What the command answers, for `mo_probe`; Usage where it is none of these. `messages TYPE` gives the messages of the
/// type's variants, in the order in which it has them. Places and lines in them are 7.
pub fn answer(alloc: Global, command: &str, arguments: &[Bytes]) -> Result<String, Stop> {
    let [kind] = arguments else {
        return Err(Stop::Usage);
    };
    if command != "messages" {
        return Err(Stop::Usage);
    }
    match of_sources::messages(alloc, kind.as_slice()) {
        Err(Stop::Usage) => of_bytes::messages(alloc, kind.as_slice()),
        answer => answer,
    }
}
