//! The rules of literals.
#![tactic(auto)]

mod literals;

pub use literals::{constant, number};
