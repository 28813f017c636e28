//! The texts of a module, with the words in which their blocks begin.
#![tactic(auto)]

mod table;

pub use table::TextTable;
