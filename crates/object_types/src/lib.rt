//! The types of objects and actors by what is written of their fields.
#![tactic(auto)]

mod members;
mod names;

pub use members::{actor_type, async_term, method_sort, object_type};
