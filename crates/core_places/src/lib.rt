//! Where the names of an actor are in Core: at its start, in its methods, and as values that its start gives.
#![tactic(auto)]

mod given;
mod places;

pub use given::values;
pub use places::{add_unknown, known, start_scope};
