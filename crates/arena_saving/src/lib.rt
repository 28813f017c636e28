//! What an actor saves before an upgrade, over an arena.
#![tactic(auto)]

mod exports;
mod held;
mod hook;
mod saved;
mod saving;
mod variables;

pub use saved::{Keeping, Saved};
pub use saving::save;
