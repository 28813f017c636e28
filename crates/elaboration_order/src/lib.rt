//! The order of groups in elaborated programs. The function of `laws` does nothing, and its contract is a theorem.
#![tactic(auto)]

mod laws;

pub use laws::groups_are_in_order;
