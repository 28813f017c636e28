//! The routines over memory in one module: a table with a line for each, and each call of a linked routine meets its line.
#![tactic(auto)]

mod laws;

pub use laws::{linked_calls_keep_their_lines, tables_are_kept};
