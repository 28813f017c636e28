//! Messages read: Candid specification, sections "Parameters and results" and "Deserialisation", as far as the types are
//! equal to the declared ones.
#![tactic(auto)]

mod message;

pub use candid_header::{Fault, Stop as WireFault};
pub use message::decode;
