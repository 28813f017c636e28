//! The rule of assignments with an operator.
#![tactic(auto)]

mod updating;

pub use updating::assign_by;
