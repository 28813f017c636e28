//! Motoko values as Candid values and back, part by part.
#![tactic(auto)]

mod laws;

pub use laws::{forms_by_parts, values_are_told, values_by_parts};
