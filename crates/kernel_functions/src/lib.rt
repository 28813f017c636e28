//! The writing out of functions.
#![tactic(auto)]

mod functions;

pub use functions::{function, function_value, made_function};
