//! The rule of functions without names.
#![tactic(auto)]

mod closing;
mod functions;
mod heads;

pub use functions::function;
