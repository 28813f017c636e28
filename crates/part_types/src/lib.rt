//! The types of the values inside a part of a value.
#![tactic(auto)]

mod fields;
mod inside;

pub use fields::in_order;
pub use inside::types_inside;
