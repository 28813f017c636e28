//! What an execution of an actor over an arena comes to: its items, and the actor that it leaves.
#![tactic(auto)]

mod closing;
mod committing;
mod concluding;
mod items;
mod lists;
mod ran;
mod running;

pub use closing::{close, is_open};
pub use committing::{completed, left_with};
pub use items::{query_items, trap_items, with_item, with_prints};
pub use lists::{with_activation, with_arrival, with_state, with_table};
pub use ran::{Done, Ending, Lived, Over, Ran};
pub use running::{run_entered, run_waiting};
