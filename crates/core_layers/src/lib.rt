//! What stands around an expression: bindings, and the checks of patterns.
#![tactic(auto)]

mod layer;
mod nesting;
mod patterns;
mod source;
mod words;

pub use layer::{Checked, Fails, Layer};
pub use nesting::around;
pub use patterns::{add_parameters, add_pattern};
pub use source::{Piece, Source};
pub use words::{choice, does, first_function, flag, let_in, one, operation, part_of, two, unit};
