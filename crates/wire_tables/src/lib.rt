//! The table of types of a message in low code: numbers of 32 bits and references, and what is to be known of each type.
#![tactic(auto)]

mod rows;

pub use rows::marks_are_as_wanted;
