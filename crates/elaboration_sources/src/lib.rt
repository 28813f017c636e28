//! Runs of what is elaborated of accepted sources are runs of their programs by the meaning. Each function of `laws` does nothing, and its contract is a theorem.
#![tactic(auto)]

mod laws;

pub use laws::{
    accepted_programs_are_formed, accepted_programs_are_judged, accepted_runs_are_elaborated,
    accepted_runs_are_kept,
};
