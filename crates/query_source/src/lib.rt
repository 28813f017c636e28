//! The sources of constant queries: an actor whose methods answer constant natural numbers.
#![tactic(auto)]

mod actor;
mod labels;
mod query;
mod source;
mod token;
mod words;

pub use query::{Method, Methods, SourceFault};
pub use source::{LONGEST_SOURCE, read_source};
