//! Names: what each means where it is used, and which rules are broken.
#![tactic(auto)]

mod fault;
mod named;
mod program;

pub use fault::NameFault;
pub use mo_scopes::{Breach, BuiltInType, Finding, Findings, Library, Meaning, Member, Rule};
pub use named::Named;
pub use program::find_names;
