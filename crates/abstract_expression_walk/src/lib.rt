//! The walk that makes the abstract syntax of expressions and declarations of a syntax tree.
#![tactic(auto)]

mod declaration_walk;
mod expression_making;
mod tree_layers;

pub use expression_making::{abstract_declaration, abstract_expression};
