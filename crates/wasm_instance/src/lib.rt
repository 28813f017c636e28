//! Instances of modules: what runs them, and keeps what they leave (WebAssembly Core 1.0, sections 4.2 and 4.5).
#![tactic(auto)]

mod instance;

pub use instance::{Instance, Limits, Outcome};
