//! Actors of flat programs as the contents of their low modules hold them, and their installation.
#![tactic(auto)]

mod laws;

pub use laws::{installs, names_are_kept, unset_names_read_as_units};
