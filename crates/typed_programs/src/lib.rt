//! From a syntax tree to its typed program.
#![tactic(auto)]

mod writing;

pub use writing::typed_program;
