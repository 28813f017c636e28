//! Laws of the source of a program. Each function of `laws` does nothing, and its contract is a theorem.
#![tactic(auto)]

mod laws;

pub use laws::{programs_are_sources, types_of_trees_are_lawful};
