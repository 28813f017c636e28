//! Laws of what functions, calls and actor references are written out to. Each function of `laws` does nothing, and its contract is a theorem.
#![tactic(auto)]

mod laws;

pub use laws::{calls_are_typed, functions_are_typed, references_are_typed};
