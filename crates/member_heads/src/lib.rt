//! The heads by which members of values go: those of their types, and where these are type parameters, of their bounds.
#![tactic(auto)]

mod bounds;
mod parts;

pub use bounds::promoted;
pub use parts::{element, mutable_element, object_field, tuple_part};
