//! The writing out of whole expressions and whole lists of declarations, by one recursion over the forms.
#![tactic(auto)]

mod recursion;

pub use recursion::{expression, list};
