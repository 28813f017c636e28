//! Whether the cases of a `switch` cover the type that it is on. Each function of `laws` does nothing, and its contract is a theorem.
#![tactic(auto)]

mod followed;
mod inhabited;
mod laws;
mod rows;

pub use followed::value_node;
pub use inhabited::{is_in, types_with_values};
pub use laws::{
    bounds_come_to_an_end, closed_tables_tell_what_has_values, coverage_is_exact,
    patterns_that_stand_are_on, values_suit_their_patterns,
};
pub use rows::coverage_is_as_wanted;
