//! When a program is typed, and which condition is false where.
#![tactic(auto)]

mod programs;

pub use programs::{TypedProgram, judge_program};
