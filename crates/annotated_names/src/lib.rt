//! Whether the names of a pattern have their types written directly at them.
#![tactic(auto)]

mod walk;

pub use walk::each_annotated;
