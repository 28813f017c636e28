//! Numbers as the language and the wire write them, and the byte and list types that every crate shares.
#![tactic(auto)]

mod arith;
mod arith_laws;
mod base32;
mod bytes;
mod crc;
mod kind;
mod leb;
mod leb_laws;
mod leb_reader;
mod memory;
mod operator;
mod power;
mod principal;
mod principal_laws;
mod principal_text;
mod sequence;
mod wrap;

pub use arith::{add, calculate, div, mul, neg, rem, sub};
pub use arith_laws::{division_law, range_law, wrapping_law};
pub use bytes::Bytes;
pub use kind::Kind;
pub use leb::{leb_write, sleb_write};
pub use leb_laws::{leb_one_answer, leb_round_trip, sleb_one_answer, sleb_round_trip};
pub use leb_reader::{LebFault, leb_read, sleb_read};
pub use memory::Memory;
pub use operator::{NumTrap, Operator};
pub use power::pow;
pub use principal::{Principal, principal_of};
pub use principal_laws::{principal_text_one, principal_text_some};
pub use principal_text::principal_read;
pub use sequence::Sequence;
pub use wrap::{add_wrap, mul_wrap, sub_wrap};
