//! Validation of modules: exactly those by the rules pass, and a fault names a rule that is broken.
#![tactic(auto)]

mod blocks;
mod body;
mod check;
mod fault;
mod function;
mod host;
mod locals;
mod names;
mod operands;
mod parts;
mod signatures;
mod validation;

pub use fault::ValidFault;
pub use parts::{MOST_ENTRIES, MOST_FUNCTIONS, MOST_GLOBALS, MOST_PAGES};
pub use validation::{Valid, validate};
