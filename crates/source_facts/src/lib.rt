//! What the front end shows of sources. Each function of `laws` does nothing, and its contract is a theorem.
#![tactic(auto)]

mod laws;

pub use laws::expressions_are_sources;
