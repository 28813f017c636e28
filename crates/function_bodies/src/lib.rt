//! The bodies of functions with a name, of public functions and of system functions.
#![tactic(auto)]

mod functions;
mod methods;
mod promises;
mod taking;

pub use functions::function_body;
pub use methods::{method_body, system_body};
