//! Executions of a canister's module (IC interface specification, section Entry points) on what the canister keeps.
#![tactic(auto)]

mod execution;
mod memories;

pub use execution::Entry;
pub use memories::{Effects, Memories, Message};
