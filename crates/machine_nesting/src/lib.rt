//! How many labels, handlers and ends of branches stand open in any execution of the machine: no more than the nodes of the bodies that it is in. It holds
//! the laws; each function of `laws` does nothing, and its contract is a theorem.
#![tactic(auto)]

mod laws;

pub use laws::{actors_are_light, nested_programs_are_sized};
