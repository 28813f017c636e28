//! The order of names: no value is used before it is defined, and with the rules of scopes the names of a program are bound.
#![tactic(auto)]

mod breaches;
mod calls;
mod layers;
mod order;
mod program;
mod reach;
mod resolving;
mod step;
mod walk;

pub use order::first_misplaced;
pub use resolving::resolve;
