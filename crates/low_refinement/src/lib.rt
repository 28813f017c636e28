//! From single executions of a low module to the host's runs of the WebAssembly that it becomes.
#![tactic(auto)]

mod laws;

pub use laws::low_simulations_refine;
