//! That what a judged program is written out to is well typed. Each function of `laws` does nothing, and its contract is a theorem.
#![tactic(auto)]

mod laws;

pub use laws::{numbers_are_of_types, programs_are_well_typed};
