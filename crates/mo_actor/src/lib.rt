//! The actor, once for all languages of the compiler: its state, its steps and its runs. It holds the definitions; each
//! function does nothing, and its contract is a theorem about them.
#![tactic(auto)]

mod laws;
mod rows;

pub use laws::{
    calls_are_answered_once, calls_are_bounded, calls_are_numbered, measured_runs_are_runs,
    passes_carry_runs, queries_leave_no_trace, runs_are_computed, traps_are_undone,
    unanswered_calls_wait, unexhausted_runs_are_one,
};
pub use rows::{
    awaits_are_as_wanted, calls_are_as_wanted, limits_are_as_wanted, programs_of_rows_settle,
    shares_are_as_wanted, upgrades_are_as_wanted,
};
