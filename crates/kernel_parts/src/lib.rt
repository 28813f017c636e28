//! How the parts of an expression are written out. This is a parameter of the rules of the forms, so that each rule is proved by itself.
#![tactic(auto)]

mod layer;
mod lists;

pub use layer::{Layer, Part, Written};
pub use lists::{Arranged, ListPart, Lists, WrittenList};
