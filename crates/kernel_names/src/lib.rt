//! The names that patterns and declarations of a judged program bind, and those that occur in declarations.
#![tactic(auto)]

mod binding;
mod names;
mod occurring;
mod patterns;

pub use binding::{declaration_names, list_names};
pub use names::Names;
pub use occurring::occurring_names;
pub use patterns::{parameter_names, pattern_names};
