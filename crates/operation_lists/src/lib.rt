//! The codes of primitives as lists of instructions.
#![tactic(auto)]

mod inline;
mod links;
mod operations;
mod primitives;
mod words;

pub use links::ModuleLinks;
pub use primitives::{push_primitive, signed_long};
pub use words::push_all;
