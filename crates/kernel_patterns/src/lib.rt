//! The typed patterns that judged ones are written out to.
#![tactic(auto)]

mod literals;
mod patterns;

pub use literals::kernel_literal;
pub use patterns::{kernel_pattern, kernel_patterns};
