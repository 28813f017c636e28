//! The types that are met, with those that they reach, as a graph; and what the rules of typing ask of them.
#![tactic(auto)]

mod closing;
mod fault;
mod nodes;
mod numbering;
mod reached;
mod types;

pub use fault::MeetFault;
pub use reached::Reached;
pub use types::Types;
