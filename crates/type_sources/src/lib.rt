//! Laws of the types that are written in a source. Each function of `laws` does nothing, and its contract is a theorem.
#![tactic(auto)]

mod laws;

pub use laws::{patterns_are_sources, types_are_sources};
