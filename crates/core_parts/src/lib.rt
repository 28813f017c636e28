//! How the parts of an expression are elaborated. This is a parameter of the rules of the forms, so that each rule is proved by itself.
#![tactic(auto)]

mod parts;
mod words;

pub use parts::{Groups, Made, Part, Parts};
pub use words::{amount, done, failure, grouped, matched, one_more, under_value};
