//! The rules of calls and of what they give.
#![tactic(auto)]

mod futures;

pub use futures::awaiting;
