//! Laws of what judged expressions are written out to. Each function of `laws` does nothing, and its contract is a theorem.
#![tactic(auto)]

mod laws;

pub use laws::forms_are_typed;
