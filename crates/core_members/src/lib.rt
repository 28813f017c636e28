//! Built-in functions in programs of nested expressions, and the table of groups of functions.
#![tactic(auto)]

mod calls;
mod form;
mod groups;
mod next;
mod operands;
mod values;

pub use calls::{called, value_of};
pub use groups::add_group;
pub use operands::bound;
