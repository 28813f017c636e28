//! Laws of public and system functions of actors. Each function of `laws` does nothing, and its contract is a theorem.
#![tactic(auto)]

mod laws;

pub use laws::{methods_are_typed, systems_are_typed};
