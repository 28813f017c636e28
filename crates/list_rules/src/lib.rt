//! Lists of declarations: types first, then signatures, then what is evaluated in order, and then bodies.
#![tactic(auto)]

mod bodies;
mod listing;

pub use listing::listed_by;
