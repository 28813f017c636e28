//! Emitted functions are formed.
#![tactic(auto)]

mod laws;

pub use laws::emitted_functions_are_formed;
