//! The definitions of types, computed on small examples.
#![tactic(auto)]

mod definitions;

pub use definitions::{
    calls_count_while_they_are_open, calls_have_owners, candid_types_of_types,
    candid_values_of_values, failures_have_least_depths, five_hundred_calls_leave_no_room,
    kept_values_have_their_types, options_of_themselves_are_one_type, some_messages_are_read,
    subtypes_by_their_parts, type_parameters_are_below_their_bounds, variables_are_saved_by_number,
};
