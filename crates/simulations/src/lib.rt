//! Simulations of whole runs: from what a step of one machine and some steps of another have to do with each other, to what
//! their runs have. It holds definitions and a theorem, which each pass of the compiler uses for its two languages.
#![tactic(auto)]

mod laws;
mod rows;

pub use laws::simulated_runs_agree;
pub use rows::runs_are_as_wanted;
