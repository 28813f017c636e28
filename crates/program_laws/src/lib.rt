//! Laws of whole programs. Each function of `laws` does nothing, and its contract is a theorem.
#![tactic(auto)]

mod laws;

pub use laws::{names_are_reached, programs_are_made, programs_are_walked};
