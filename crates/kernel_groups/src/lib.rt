//! The indexes of a list of numbers, grouped by the numbers that stand there.
#![tactic(auto)]

mod groups;

pub use groups::{Groups, groups_of};
