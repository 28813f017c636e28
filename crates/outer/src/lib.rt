//! What a program reads and writes: named files, and sinks of bytes.
#![tactic(auto)]

mod memory;
mod outside;
mod plan;
mod real;

pub use memory::{MemFiles, MemSink, Names};
pub use outside::{Content, Files, OutsideFault, Sink};
pub use plan::Places;
pub use real::{RealFiles, RealSink};
