//! The rules of names: of values, and of members of modules.
#![tactic(auto)]

mod futures;
mod modules;
mod names;

pub use futures::future_placed;
pub use modules::{built_in, module_member};
pub use names::name;
