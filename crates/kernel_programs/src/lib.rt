//! The writing out of whole programs.
#![tactic(auto)]

mod actors;
mod programs;
mod whole;

pub use whole::kernel_program;
