//! What an instance of a module holds between its executions, and how a module is loaded.
#![tactic(auto)]

mod constant;
mod room;
mod segments;
mod store;

pub use room::Room;
pub use store::{LoadTrap, MOST_ENTRIES, MOST_GLOBALS, Store};
