//! The parts of the types of data, and the types of parts.
#![tactic(auto)]

mod heads;
mod kinds;
mod wanted;

pub use heads::{array_part, mutable_array_part, tag_part};
pub use kinds::kinds_of;
pub use wanted::{wanted_array, wanted_mutable_array, wanted_tag};
