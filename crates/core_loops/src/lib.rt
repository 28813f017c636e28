//! Branches, loops, labels, errors and updates of typed programs in Core.
#![tactic(auto)]

mod loops;
mod truths;

pub use loops::{attempt, choose, endless, for_each, label, repeat, update, while_loop};
