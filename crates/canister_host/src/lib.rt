//! The host: what a canister's modules answer to a list of events.
#![tactic(auto)]

mod calls;
mod interface;

pub use calls::{IncomingCall, OpenCall};
pub use interface::Interface;
