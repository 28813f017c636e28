//! Laws of what judged programs are written out to. Each function of `laws` does nothing, and its contract is a theorem.
#![tactic(auto)]

mod laws;

pub use laws::patterns_are_typed;
