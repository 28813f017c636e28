//! Bodies of methods of typed programs in Core.
#![tactic(auto)]

mod contexts;
mod methods;

pub use methods::method_bodies;
