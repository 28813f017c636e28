//! The parser of expressions and declarations.
#![tactic(auto)]

mod declarations;
mod grammar;
mod lists;
mod operands;
mod operations;
mod signs;
mod start;
mod words;

pub use start::{declaration_at, expression_at, read_body, read_declaration, read_expression};
