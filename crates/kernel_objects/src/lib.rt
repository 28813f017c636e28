//! The writing out of blocks, and of objects and classes of declarations.
#![tactic(auto)]

mod classes;
mod names;
mod objects;
mod operands;

pub use classes::class_function;
pub use objects::{block, object_block};
