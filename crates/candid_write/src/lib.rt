//! Writes Candid messages: their headers and their values, in one spelling.
#![tactic(auto)]

mod classes;
mod header;
mod message;
mod places;
mod signature;

pub use classes::classes_of;
pub use header::{put_count, put_string};
pub use message::{put_type_table, type_table};
