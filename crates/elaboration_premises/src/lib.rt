//! What elaboration asks of programs, states and patterns comes from typing. It holds the laws; each function of `laws` does nothing, and its contract is
//! a theorem about well-typed programs.
#![tactic(auto)]

mod laws;

pub use laws::{
    typed_executions_are_followed, typed_executions_serve, typed_methods_are_entered,
    typed_patterns_meet, typed_starts_serve, typed_trees_stand,
};
