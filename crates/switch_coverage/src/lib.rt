//! The switches of a typed program that miss a value of their type.
#![tactic(auto)]

mod uncovered;
mod walk;

pub use uncovered::{Uncovered, uncovered_switches};
