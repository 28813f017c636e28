//! The rule of objects that are written by their fields.
#![tactic(auto)]

mod fields;
mod objects;
mod values;

pub use objects::object;
