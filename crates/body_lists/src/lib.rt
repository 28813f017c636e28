//! The bodies of functions as lists of low instructions.
#![tactic(auto)]

mod bodies;
mod code;
mod functions;
mod groups;
mod known;
mod operands;
mod width;

pub use functions::function_of;
pub use groups::GroupSizes;
pub use known::Known;
