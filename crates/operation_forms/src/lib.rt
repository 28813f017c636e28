//! The low code of primitives, and the routines that it calls, are formed.
#![tactic(auto)]

mod laws;

pub use laws::{codes_are_formed, routines_are_formed, sequences_are_formed};
