//! The writing out of expressions, one function for all forms.
#![tactic(auto)]

mod entering;
mod forms;

pub use entering::written_by;
