//! Expressions, declarations and functions of typed programs in Core, by one recursion over the forms.
#![tactic(auto)]

mod forms;
mod recursion;

pub use recursion::{body, declaration, expression};
