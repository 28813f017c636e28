//! The flat steps that a machine runs: how validated code is laid out as steps whose branches have fixed targets, and
//! that each step follows the meaning of the code.
#![tactic(auto)]

mod layout;
mod step;

pub use layout::{BodyLayout, FunctionLayout, ModuleLayout};
pub use step::{Label, Step, step_of};
