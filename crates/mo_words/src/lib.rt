//! The words of a command line.
#![tactic(auto)]

mod command;
mod options;
mod split;

pub use command::{Command, Replay, read_words};
pub use options::Options;
