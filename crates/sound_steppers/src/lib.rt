//! Steppers of well-typed programs go on: no execution that they follow is stuck. Each function of `laws` does nothing, and its
//! contract is a theorem about it.
#![tactic(auto)]

mod laws;

pub use laws::steppers_go_on;
