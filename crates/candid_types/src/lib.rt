//! The Candid types of the types of a graph, by number.
#![tactic(auto)]

mod entries;
mod heads;
mod numbering;
mod table;

pub use numbering::{number, numbers, plain};
pub use table::Shapes;
