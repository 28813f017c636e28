//! Laws of the declarations of actors. Each function of `laws` does nothing, and its contract is a theorem.
#![tactic(auto)]

mod laws;

pub use laws::{actors_are_made, actors_are_walked};
