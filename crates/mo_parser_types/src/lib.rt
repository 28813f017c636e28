//! The parser of types.
#![tactic(auto)]

mod generics;
mod grammar;
mod lists;
mod start;

pub use generics::{read_type_arguments, read_type_names, read_type_parameters};
pub use start::{read_annotation, read_type, type_at};
