//! Laws of blocks and of objects with declarations. Each function of `laws` does nothing, and its contract is a theorem.
#![tactic(auto)]

mod laws;

pub use laws::{fields_are_objects, lists_are_blocks};
