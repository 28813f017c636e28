//! Typed programs as programs of nested expressions.
#![tactic(auto)]

mod actor;
mod measured;
mod methods;
mod program;

pub use measured::elab;
