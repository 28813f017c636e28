//! How many nodes stand in parts of a judged program.
#![tactic(auto)]

mod declarations;
mod next;
mod patterns;
mod types;

pub use declarations::{count_declaration, count_expression, count_list};
pub use patterns::{count_context, count_patterns};
