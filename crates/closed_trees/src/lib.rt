//! Typed trees run as typed expressions, in each environment of the type parameters in scope. Each function of `laws` does
//! nothing, and its contract is a theorem about it.
#![tactic(auto)]

mod laws;

pub use laws::{
    closed_operands_are_as_wanted, closed_types_are_lawful, patterns_are_typed,
    reductions_keep_closed_types, trees_are_typed,
};
