//! The writing out of lists of declarations in the order of evaluation.
#![tactic(auto)]

mod groups;
mod lists;
mod order;
mod values;

pub use lists::list_by;
