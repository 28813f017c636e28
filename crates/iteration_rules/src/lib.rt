//! The rule of `for`, and what it goes over.
#![tactic(auto)]

mod for_loops;
mod items;
mod turns;

pub use for_loops::iterating;
