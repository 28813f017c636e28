//! Events of typed actor programs by the machine over an arena.
#![tactic(auto)]

mod absent;
mod installing;
mod laws;
mod living;
mod programs;
mod state;
mod stepper;
mod upgrading;

pub use laws::steps_are_runs;
pub use state::{Behind, Next, Running, State, Stepped, Stepper};
