//! Messages read into an arena, exactly as every faithful coding reads them.
#![tactic(auto)]

mod fields;
mod heads;
mod inside;
mod opening;
mod reading;

pub use reading::{read_values, values_of_parts};
