//! Modules as bytes: the writer of the binary format (WebAssembly Core 1.0, section 5).
#![tactic(auto)]

mod code_spelled;
mod op_spelled;
mod opcodes;
mod parts_spelled;
mod spell;
mod writer;

pub use writer::write;
