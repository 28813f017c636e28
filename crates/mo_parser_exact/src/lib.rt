//! Expressions, declarations and bodies off the front of the tokens, exactly where the grammar has them.
#![tactic(auto)]

mod front;

pub use front::{read_body, read_declaration, read_expression};
