//! The low code of each primitive that is treated does what its primitive does.
#![tactic(auto)]

mod laws;

pub use laws::operations_keep;
