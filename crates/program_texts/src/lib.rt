//! The texts of a program.
#![tactic(auto)]

mod code;
mod operands;
mod program;

pub use program::texts_of;
