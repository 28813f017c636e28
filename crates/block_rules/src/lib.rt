//! The rules of blocks and of objects with declarations.
#![tactic(auto)]

mod blocks;
mod objects;

pub use blocks::{block, object_block};
pub use objects::judge_object;
