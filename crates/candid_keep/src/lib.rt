//! Whether types of one program are equal to types of another one, as Candid types.
#![tactic(auto)]

mod header;
mod numbers;
mod types;
mod wires;

pub use types::are_same;
