//! The low code of the primitives of numbers, truth values, variables, tuples, options and traps.
#![tactic(auto)]

mod laws;

pub use laws::codes_are_shallow;
