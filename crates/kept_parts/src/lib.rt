//! Values of one program at a type of the next one, part by part.
#![tactic(auto)]

mod comparing;
mod forming;
mod keeping;
mod unforming;
mod waiting;

pub use keeping::kept_parts;
