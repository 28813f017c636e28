//! Accepted sources are never stuck: the program of a source that the front end accepts is typed, and its actor goes on. Each
//! function of `laws` does nothing, and its contract is a theorem about it.
#![tactic(auto)]

mod laws;

pub use laws::{accepted_sources_are_typed, accepted_sources_go_on};
