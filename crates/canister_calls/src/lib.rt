//! The calls of a canister: those that it has had, those that it waits for, and the items that they give.
#![tactic(auto)]

mod calls;
mod items;

pub use calls::{Awaiting, Calls, nobody};
pub use items::push_prints;
