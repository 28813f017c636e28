//! The parts of an expression, whatever is made of them.
#![tactic(auto)]

mod part_kinds;

pub use part_kinds::{Parts, parts_of_form};
