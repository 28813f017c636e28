//! Laws of Candid messages: one value to the bytes, one header to the types, and what is written is read. Each function
//! does nothing: its contract is a theorem about the definitions that reading and writing cite.
#![tactic(auto)]

mod equality;
mod form;
mod header;
mod reading;
mod round_trip;

pub use equality::{
    equal_types_are_read_alike, equal_types_have_one_message, kept_values_are_read_alike,
};
pub use form::{one_kept_value, one_value_of_a_form};
pub use header::{
    entries_are_types, equal_types_have_one_header, one_header, types_of_one_header_are_equal,
};
pub use reading::{one_value, one_written_value};
pub use round_trip::{
    read_is_read_again, some_types_are_sound, types_of_a_graph_are_sound, written_is_read,
};
