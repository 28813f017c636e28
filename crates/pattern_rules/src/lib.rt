//! The rules of expressions that bind names by patterns, and of labels.
#![tactic(auto)]

mod arms;
mod labels;
mod switches;
mod tries;

pub use labels::labelled;
pub use switches::switching;
pub use tries::trying;
