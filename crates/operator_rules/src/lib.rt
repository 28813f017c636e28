//! The rules of operators.
#![tactic(auto)]

mod assigning;
mod choosing;
mod comparing;
mod negating;
mod summing;
mod words;

pub use assigning::operand;
pub use choosing::binary;
pub use negating::negative;
