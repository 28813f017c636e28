//! Laws of how many nodes there are in what judged programs are written out to. Each function of `laws` does nothing, and its contract is a theorem.
#![tactic(auto)]

mod laws;

pub use laws::{classes_are_covered, functions_are_covered, programs_are_covered};
