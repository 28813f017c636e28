//! The parts of an expression of a judged program, whatever is made of them.
#![tactic(auto)]

mod parts;

pub use parts::{Parts, parts_of_form};
