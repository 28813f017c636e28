//! What each fault of a source means.
#![tactic(auto)]

mod meaning;

pub use meaning::{condition_meaning, lex_meaning, name_meaning, parse_meaning};
