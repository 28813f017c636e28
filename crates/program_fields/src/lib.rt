//! The fields of a program, and the types that every program has.
#![tactic(auto)]

mod basics;
mod fields;

pub use fields::judge_fields;
