//! Whether written types are as they have to be, and the types that they are.
#![tactic(auto)]

mod definitions;
mod parameters;
mod reading;
mod shareable;
mod walk;

pub use definitions::defines;
pub use parameters::generics;
pub use reading::{reads, reads_each, reads_or};
pub use walk::proper;
