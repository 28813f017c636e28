//! The parser of patterns.
#![tactic(auto)]

mod grammar;
mod lists;
mod parameters;
mod start;

pub use parameters::{read_parameters, read_pattern_fields};
pub use start::{pattern_at, read_case_pattern, read_pattern};
