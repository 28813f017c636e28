//! What becomes of an execution of low code under smaller limits: it ends the same, or for want of what there was less of, after a
//! part of the prints.
#![tactic(auto)]

mod laws;

pub use laws::{calls_under_limits, frames_end_before_depth, smaller_limits_cut_executions};
