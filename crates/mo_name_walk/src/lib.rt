//! The names in expressions and declarations: what they mean, and which rules they break.
#![tactic(auto)]

mod declarations;
mod expressions;
mod layers;

pub use expressions::{find_in_declaration, find_in_expression};
