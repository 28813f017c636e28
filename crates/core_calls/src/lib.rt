//! Actions and calls of typed programs in Core.
#![tactic(auto)]

mod callee;
mod calls;

pub use calls::act;
