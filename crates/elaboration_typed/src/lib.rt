//! Well-typed programs are as the laws of starts and saves ask. The function of `laws` does nothing, and its contract is a theorem.
#![tactic(auto)]

mod laws;

pub use laws::{typed_actors_stand, typed_programs_are_named};
