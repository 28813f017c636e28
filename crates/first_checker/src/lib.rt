//! What is known of the types of a program before it is judged.
#![tactic(auto)]

mod types;

pub use types::first_checker;
