//! The types of a program that was judged, by the numbers that they have in the graph.
#![tactic(auto)]

mod types;

pub use types::KernelTypes;
