//! What a new program takes over of the stable variables of an old one, over an arena.
#![tactic(auto)]

mod keeping;
mod places;
mod taken;
mod taking;

pub use keeping::keep_values;
