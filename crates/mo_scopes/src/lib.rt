//! What names mean at a place, and the rules on names and lists of names.
#![tactic(auto)]

mod finding;
mod library;
mod meaning;
mod names;
mod rule;
mod scope;

pub use finding::{Finding, Findings};
pub use library::{BuiltInType, Library, Member, is_system_function, library_of};
pub use meaning::Meaning;
pub use names::{
    broken_where, each_identifier, each_label, identifier, label, labels, together, used,
};
pub use rule::{Breach, Rule};
pub use scope::Scope;
