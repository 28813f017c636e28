//! Writes Motoko values as Candid messages, in one spelling.
#![tactic(auto)]

mod leaf;
mod message;
mod number;
mod part;
mod reference;
mod refusal;
mod values;

pub use message::{encode, encode_checked, have_types};
pub use refusal::Refusal;
