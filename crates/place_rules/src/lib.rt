//! The rules of what may be assigned to, and of assignments.
#![tactic(auto)]

mod assigning;
mod fitting;
mod kinds;

pub use assigning::{assign, judge_place};
