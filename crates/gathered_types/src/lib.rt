//! The type definitions and type parameters of a program, wherever they stand.
#![tactic(auto)]

mod definitions;
mod found;
mod program;
mod walk;

pub use program::gathered;
