//! The writing out of forms of several parts: choices, loops, operators, elements and assignments.
#![tactic(auto)]

mod choices;
mod places;

pub use choices::{binary, conditional, index, loop_while, when, while_loop};
pub use places::{assign, assign_by, negative};
