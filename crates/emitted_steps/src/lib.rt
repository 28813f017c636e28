//! Steps of structured code in an execution of its low code.
#![tactic(auto)]

mod laws;

pub use laws::{routines_do, steps_are_followed};
