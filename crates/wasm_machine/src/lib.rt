//! A machine that runs WebAssembly modules exactly as their code means, with steps and stack words counted.
#![tactic(auto)]

mod activate;
mod advance;
mod ask;
mod call;
mod drive;
mod execution;
mod frames;
mod host;
mod memory;
mod operands;
mod sought;
mod turn;

pub use call::Stop;
pub use execution::execute;
pub use frames::Saved;
pub use host::{Host, HostEnd};
