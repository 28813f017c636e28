//! The parser of programs: the tree of a list of tokens, or the first fault.
#![tactic(auto)]

mod entry;
mod fault;
mod fields;
mod functions;
mod law;
mod program;

pub use entry::parse;
pub use fault::ParseFault;
pub use law::one_tree;
