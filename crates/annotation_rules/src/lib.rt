//! The rules of annotated expressions and of actor references.
#![tactic(auto)]

mod actors;
mod annotations;

pub use annotations::{actor_reference, annotated};
