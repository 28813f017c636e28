//! What binds parameters, contexts and the names of a list of declarations while expressions are judged.
#![tactic(auto)]

mod copying;
mod listing;
mod taking;

pub use copying::{copied_annotation, copied_signature};
pub use listing::{definitions_of, signatures};
pub use taking::{context_of, parameters};
