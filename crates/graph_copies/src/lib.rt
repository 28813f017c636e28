//! Graphs of types once more.
#![tactic(auto)]

mod graph;
mod node;

pub use graph::graph_again;
pub use node::node_again;
