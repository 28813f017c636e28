//! The types at the nodes of typed trees. The function of `laws` does nothing, and its contract is a theorem.
#![tactic(auto)]

mod laws;

pub use laws::types_are_there;
