//! Executions of elaborated programs: how far Core's run is where an execution of a typed program stands so, and that it follows each turn
//! of that. Each function of `laws` does nothing, and its contract is a theorem.
#![tactic(auto)]

mod laws;

pub use laws::{
    answers_are_followed, awaits_are_followed, calls_are_followed, entries_are_followed,
    executions_are_covered, executions_are_followed, executions_go_on, turns_are_followed,
};
