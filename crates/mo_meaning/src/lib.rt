//! The meaning of typed programs: reduction with the cost of each step, executions, and the run of their actors. It holds the
//! definitions; each function does nothing, and its contract is a theorem about them.
#![tactic(auto)]

mod laws;
mod rows;

pub use laws::{
    executions_grow, executions_keep_limits, executions_settle, programs_run_as_actors,
    turns_are_paid,
};
pub use rows::{
    awaits_are_as_wanted, calls_are_limited, catches_are_as_wanted, counters_are_as_wanted,
    exhaustions_are_as_wanted, futures_are_as_wanted, ledger_is_as_wanted, messages_are_as_wanted,
    orders_are_as_wanted, texts_are_as_wanted, upgrades_are_as_wanted, weights_are_as_wanted,
};
