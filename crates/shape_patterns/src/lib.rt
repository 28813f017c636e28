//! The shape of the values that a `switch` misses, written as a pattern.
#![tactic(auto)]

mod choice;
mod laws;
mod leaf;
mod written;

pub use laws::patterns_stand_for_shapes;
pub use written::missed_pattern;
