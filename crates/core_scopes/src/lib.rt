//! Where names and labels of the source are in programs of nested expressions.
#![tactic(auto)]

mod exits;
mod place;
mod scope;
mod stack;

pub use exits::Exits;
pub use place::{Place, at_place, name_at, nothing};
pub use scope::{Mark, Scope};
