//! Types as terms in a table: each term once, under a number of its own, with its parts by their numbers.
#![tactic(auto)]

mod form;
mod layout;
mod parts;
mod table;

pub use form::{Form, TermId, copy_fields, copy_parts};
pub use table::Terms;
