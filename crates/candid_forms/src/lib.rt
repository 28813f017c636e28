//! Motoko values with their Candid bytes, part by part.
#![tactic(auto)]

mod laws;

pub use laws::{inside_by_number, read_by_number, read_forms, written_by_number, written_forms};
