//! Candid messages of Motoko values: written in one spelling, read exactly, and what is written is read.
#![tactic(auto)]

mod law;

pub use candid_decode::{Fault, WireFault, decode};
pub use candid_encode::{Refusal, encode, encode_checked, have_types};
pub use candid_write::type_table;
pub use law::round_trip;
