//! The names in scope where a program begins.
#![tactic(auto)]

mod scopes;

pub use scopes::{first_place, first_scopes};
