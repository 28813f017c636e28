//! The types of built-in members, of modules and of values, written out as terms.
#![tactic(auto)]

mod errors;
mod module_members;
mod value_members;
mod writing;

pub use module_members::member_bound;
pub use value_members::{array_member, text_member};
