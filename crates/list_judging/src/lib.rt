//! How lists of declarations are judged, which blocks, objects and classes have as parts.
#![tactic(auto)]

mod part;

pub use part::{JudgedList, ListPart, Lists, MadeList};
