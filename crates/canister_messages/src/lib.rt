//! Executions for the incoming calls of a canister, and for the answers to its outgoing calls, with what they leave.
#![tactic(auto)]

mod answers;
mod ends;
mod incoming;
mod state;

pub use answers::Received;
pub use state::State;
