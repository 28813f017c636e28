//! From low code to WebAssembly: a valid module with the same executions, by one loop over the instructions of each body.
#![tactic(auto)]

mod emission;
mod instruction;
mod interface;
mod laws;
mod parts;

pub use emission::to_wasm;
pub use laws::emitted_modules_keep;
