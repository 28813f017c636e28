//! Low code after low code, and places in an execution of it.
#![tactic(auto)]

mod laws;

pub use laws::{code_goes_before, code_runs_on, sequences_are_lists};
