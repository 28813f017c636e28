//! The graph of a program's types. Each function of `laws` does nothing, and its contract is a theorem.
#![tactic(auto)]

mod laws;

pub use laws::{graphs_are_kept, graphs_are_lawful};
