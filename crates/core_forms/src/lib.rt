//! Forms of typed programs in Core: literals, actions, loops, and names that stand behind patterns.
#![tactic(auto)]

mod bindings;
mod copies;
mod goals;
mod words;

pub use bindings::{add_let, add_variable, bind_nearest, bind_parameters};
pub use copies::{bytes_again, operation_again, types_again};
pub use goals::goal_of;
pub use words::{
    break_with, constant, element, if_true, labelled, looped, repeated, tried, updated,
};
