//! Well-typed programs are never stuck: their bodies are typed as expressions that run, and each execution of an actor goes
//! on, or ends as its types say. Each function of `laws` does nothing, and its contract is a theorem about it.
#![tactic(auto)]

mod laws;

pub use laws::{
    actors_go_on, actors_stay_typed, bodies_end_as_typed, declarations_are_typed,
    executions_keep_types, messages_keep_types, savings_end_as_typed, small_programs_are_typed,
    starts_end_as_typed,
};
