//! A routine that reads the table of types of a message, in low code.
#![tactic(auto)]

mod rows;

pub use rows::tables_are_read;
