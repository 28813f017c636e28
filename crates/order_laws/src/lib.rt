//! Laws of the order in which declarations are evaluated. Each function of `laws` does nothing, and its contract is a theorem.
#![tactic(auto)]

mod laws;

pub use laws::lists_are_in_order;
