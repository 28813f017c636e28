//! Typed expressions are never stuck: what runs is a value or can be reduced, and stays typed. It holds the typing of what
//! runs; each function of `laws` does nothing, and its contract is a theorem about it.
#![tactic(auto)]

mod laws;

pub use laws::{
    bounds_have_to_end, graphs_are_lawful, operands_are_as_wanted, reductions_keep_types,
    small_expressions_are_typed, typed_expressions_go_on, types_rise, values_have_their_types,
    what_asks_is_answered, what_is_reached_is_typed, what_waits_waits_over_each_store,
};
