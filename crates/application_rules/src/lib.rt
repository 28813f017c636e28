//! The rule of calls of functions.
#![tactic(auto)]

mod callees;
mod calls;
mod functions;

pub use calls::calling;
