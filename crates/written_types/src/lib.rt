//! The types that are written, as terms.
#![tactic(auto)]

mod forms;
mod names;
mod writing;

pub use writing::{awaited, term};
