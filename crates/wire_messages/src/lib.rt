//! Messages in low code, of numbers, truth values and (): functions that read a method's arguments and write its results.
#![tactic(auto)]

mod column;
mod laws;
mod reading;
mod replies;
mod rows;

pub use column::Wired;
pub use laws::{arguments_are_read, messages_are_formed, replies_are_written};
pub use reading::arguments;
pub use replies::reply;
pub use rows::replies_are_as_wanted;
