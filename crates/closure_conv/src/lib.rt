//! Conversion of closures: from groups of functions that see all names in scope to groups that see what their functions use.
#![tactic(auto)]

mod code;
mod operands;
mod program;
mod uses;
mod using;

pub use program::convert;
