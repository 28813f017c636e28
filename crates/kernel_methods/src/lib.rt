//! The writing out of the public and system functions of an actor.
#![tactic(auto)]

mod bodies;
mod heads;
mod public_functions;
mod shared;
mod system_functions;

pub use public_functions::methods;
pub use shared::are_shared;
pub use system_functions::system;
