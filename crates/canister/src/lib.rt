//! The host of one canister: what it answers to events.
#![tactic(auto)]

mod canister;
mod events;
mod installing;

pub use canister::Canister;
