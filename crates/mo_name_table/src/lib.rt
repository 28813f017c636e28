//! Lists of names, and such in which a name is found in constant time.
#![tactic(auto)]

mod names;
mod table;

pub use names::{Names, push_copies, push_copy};
pub use table::NameTable;
