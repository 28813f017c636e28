//! The actor of an elaborated program: each of its executions shows no more than one of the typed program, and ends as that does. Each function of
//! `laws` does nothing, and its contract is a theorem.
#![tactic(auto)]

mod laws;

pub use laws::{
    executions_end, messages_are_told, methods_are_code, methods_are_followed,
    resumptions_are_followed, runs_are_kept, starts_begin, starts_end,
};
