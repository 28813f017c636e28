//! Nodes of typed trees at the types of a judged program.
#![tactic(auto)]

mod data;
mod nodes;
mod operands;
mod values;

pub use data::{act_on, ignored, operate_on, project, tagged, widened};
pub use nodes::{acts, at, operates};
pub use operands::{one, three, two};
pub use values::{
    alone, constant, flag, held, leaves, name, new_cell, of_names, tuple, unit_value,
};
