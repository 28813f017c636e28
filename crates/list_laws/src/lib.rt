//! Laws of what lists of declarations are written out to. Each function of `laws` does nothing, and its contract is a theorem.
#![tactic(auto)]

mod laws;

pub use laws::lists_are_typed;
