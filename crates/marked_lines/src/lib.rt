//! The line of a source on which a place is, with a mark under the place.
#![tactic(auto)]

mod marking;

pub use marking::marked_line;
