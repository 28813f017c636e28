//! The writing out of one declaration: its step and its names, or its function.
#![tactic(auto)]

mod functions;
mod steps;

pub use functions::{push_function, push_function_name};
pub use steps::write_declaration;
