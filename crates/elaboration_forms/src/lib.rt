//! Elaboration as a relation: when code of nested expressions is that of an expression of the source. Each function of `laws` does nothing,
//! and its contract is a theorem.
#![tactic(auto)]

mod laws;

pub use laws::elaboration_gives_code;
