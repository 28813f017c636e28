//! A program in its low module.
#![tactic(auto)]

mod laws;

pub use laws::functions_stand;
