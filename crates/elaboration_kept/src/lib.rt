//! Runs of elaborated programs are runs of the well-typed programs from which they are made. It holds the laws; each function of `laws` does nothing, and its
//! contract is a theorem.
#![tactic(auto)]

mod laws;

pub use laws::{typed_programs_are_sound, well_typed_runs_are_kept};
