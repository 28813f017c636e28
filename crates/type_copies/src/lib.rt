//! Written types once more, for the tree that has types at its nodes.
#![tactic(auto)]

mod copying;

pub use copying::{copied_name, copied_type};
