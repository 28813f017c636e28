//! Functions, declarations and blocks of typed programs in Core.
#![tactic(auto)]

mod blocks;
mod functions;
mod kept;

pub use blocks::{add_step, block};
pub use functions::body;
