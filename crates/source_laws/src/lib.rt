//! Laws of whole expressions. Each function of `laws` does nothing, and its contract is a theorem.
#![tactic(auto)]

mod laws;

pub use laws::{definitions_are_gathered, expressions_are_typed, lists_are_ready};
