//! The fields of types of objects, and those of objects as they are written.
#![tactic(auto)]

mod fields;
mod heads;

pub use fields::{are_there, field_named};
pub use heads::{object_fields, wanted_object};
