//! Numbers and truth values of messages in low code: routines that read them from bytes, and that write them.
#![tactic(auto)]

mod laws;
mod readers;
mod rows;
mod writers;

pub use laws::{
    flags_are_read, flags_are_written, numbers_are_read, numbers_are_written, routines_are_formed,
};
pub use readers::{flag_reader, reader};
pub use rows::calls_are_as_wanted;
pub use writers::{flag_writer, writer};
