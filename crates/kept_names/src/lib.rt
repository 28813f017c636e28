//! Laws of the names in what is judged. Each function of `laws` does nothing, and its contract is a theorem.
#![tactic(auto)]

mod laws;

pub use laws::lists_are_kept;
