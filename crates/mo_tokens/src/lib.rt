//! The writing of a tree as tokens.
#![tactic(auto)]

mod declaration_layers;
mod expression_layers;
mod expression_lists;
mod expression_writing;
mod leaves;
mod operators;
mod part;
mod pattern_writing;
mod type_layers;
mod type_writing;
mod word_layers;
mod writer;
mod writing;

pub use writing::tokens;
