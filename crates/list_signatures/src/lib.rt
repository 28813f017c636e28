//! The types that a list of declarations defines, and the names that its functions, classes and public functions bind in the whole
//! of it.
#![tactic(auto)]

mod definitions;
mod names;

pub use definitions::definitions_of;
pub use names::signatures;
