//! What the rules of typing ask of type definitions and of the bounds of type parameters.
#![tactic(auto)]

mod bounds;
mod groups;
mod keeping;
mod outcomes;

pub use bounds::{ends, members_head, promote};
pub use keeping::keeps_parameters;
pub use outcomes::has_type;
