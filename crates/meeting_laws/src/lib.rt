//! Laws of the types that a judged program meets. Each function of `laws` does nothing, and its contract is a theorem.
#![tactic(auto)]

mod laws;

pub use laws::types_of_programs_are_lawful;
