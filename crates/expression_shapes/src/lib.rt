//! What the form of an expression is, as far as the rule of an expression around it looks at it.
#![tactic(auto)]

mod shape;

pub use shape::{Shape, shape_of};
