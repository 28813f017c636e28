//! Upgrades of an actor over an arena.
#![tactic(auto)]

mod open_calls;
mod outstanding;
mod restarting;
mod saving;
mod staying;
mod upgraded;
mod upgrading;

pub use upgraded::Upgrade;
pub use upgrading::upgrade;
