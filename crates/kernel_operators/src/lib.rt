//! Operators of judged expressions as operations of the table.
#![tactic(auto)]

mod heads;
mod operands;
mod operations;

pub use operands::{binary, negative};
pub use operations::operation;
