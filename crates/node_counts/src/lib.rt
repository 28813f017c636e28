//! How many nodes a program has, up to one more than it may have.
#![tactic(auto)]

mod capped;
mod declarations;
mod patterns;
mod types;

pub use declarations::count_nodes;
