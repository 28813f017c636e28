//! The functions of a program's bodies, as they stand in its low module.
#![tactic(auto)]

mod functions;
mod knowing;

pub use functions::functions_of;
pub use knowing::known_of;
