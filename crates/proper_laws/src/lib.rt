//! Laws of the types of programs. Each function of `laws` does nothing, and its contract is a theorem.
#![tactic(auto)]

mod laws;

pub use laws::{proper_types_are_lawful, written_types_are_proper};
