//! Headers of Candid messages (Candid specification, section "Type definition table"), read exactly.
#![tactic(auto)]

mod entry;
mod fault;
mod header;
mod list;
mod number;
mod reference;
mod table;

pub use fault::{Fault, Stop};
pub use header::{Header, read_header};
pub use number::{read_slice, read_u32, split};
