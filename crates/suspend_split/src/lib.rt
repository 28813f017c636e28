//! Splitting: from nested expressions to structured code over slots, in segments that go on behind an await.
#![tactic(auto)]

mod around;
mod awaits;
mod bindings;
mod body;
mod draft;
mod expression;
mod operands;
mod program;
mod width;

pub use program::split;
