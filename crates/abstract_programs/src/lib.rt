//! The abstract syntax of a program, made of a syntax tree.
#![tactic(auto)]

mod program_making;

pub use program_making::abstract_program;
