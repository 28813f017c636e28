//! The abstract syntax of types and patterns as values.
#![tactic(auto)]

mod boxed;
mod leaves;
mod making;
mod names;
mod patterns;
mod types;

pub use boxed::Boxed;
pub use leaves::{copied_literal, count_if, number_behind, placed_name};
pub use making::{make_node, make_pattern};
pub use names::PlacedName;
pub use patterns::{Pattern, PatternField, PatternForm, Signature};
pub use types::{TypeField, TypeForm, TypeNode, TypeParameter};
