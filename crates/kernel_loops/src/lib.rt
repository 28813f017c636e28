//! The writing out of forms that bind names, and of labels.
#![tactic(auto)]

mod binding;
mod labels;

pub use binding::{iterating, switching, trying};
pub use labels::{do_option, labelled};
