//! Lists of tokens and trees as texts of the language.
#![tactic(auto)]

mod last;
mod numeral;
mod spelling;
mod text;
mod token;

pub use spelling::{spell, unparse};
