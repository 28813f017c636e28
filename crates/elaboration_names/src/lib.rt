//! What elaborated programs name is there. The function of `laws` does nothing, and its contract is a theorem.
#![tactic(auto)]

mod laws;

pub use laws::elaborated_programs_are_named;
