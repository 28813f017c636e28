//! What splitting asks of a program of nested expressions comes from its names and its measures. The function of `laws` does nothing, and its contract is a
//! theorem.
#![tactic(auto)]

mod laws;

pub use laws::named_programs_within_measures_are_formed;
