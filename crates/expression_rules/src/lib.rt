//! The rule of an expression, by its form.
#![tactic(auto)]

mod arrays;
mod entering;
mod forms;

pub use entering::judged_by;
pub use forms::by_form;
