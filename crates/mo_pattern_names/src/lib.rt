//! The names in types and patterns: what they mean, which rules they break, and which a pattern binds.
#![tactic(auto)]

mod pattern_layers;
mod patterns;
mod type_layers;
mod types;
mod walk;

pub use walk::Walk;
