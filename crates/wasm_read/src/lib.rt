//! Reads modules from their bytes.
#![tactic(auto)]

mod code;
mod expression;
mod fault;
mod instruction;
mod laws;
mod number;
mod part;
mod reading;
mod section;
mod shape;
mod vector;

pub use fault::ReadFault;
pub use laws::{one_module, read_where_written};
pub use reading::{LARGEST_MODULE, read};
