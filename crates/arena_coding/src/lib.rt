//! Messages of the values of an arena: their bytes, as every faithful coding gives them.
#![tactic(auto)]

mod listing;
mod results;
mod writing;

pub use results::unpacked;
pub use writing::{Message, empty_message, message_of};
