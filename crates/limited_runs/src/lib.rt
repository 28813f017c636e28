//! Executions of the low code of structured code under any limits.
#![tactic(auto)]

mod laws;

pub use laws::{
    bodies_end_within_limits, cuts_add_up, cuts_are_results, host_runs_out, host_shows_texts,
};
