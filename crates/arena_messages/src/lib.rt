//! The values of an arena in messages: which of them go into one at a type, with which parts; and equality at a type, by
//! which all operations are defined.
#![tactic(auto)]

mod fields;
mod fits;
mod going;
mod outermost;
mod parts;
mod waiting;

pub use going::goes;
pub use parts::plain;
