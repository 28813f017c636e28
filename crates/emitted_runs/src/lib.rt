//! Whole executions of structured code in executions of its low code.
#![tactic(auto)]

mod laws;

pub use laws::{bodies_are_entered, executions_begin, runs_add_up, runs_are_followed};
