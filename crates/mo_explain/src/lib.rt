//! The command that explains a source, over files and a sink.
#![tactic(auto)]

mod explaining;

pub use explaining::explain;
