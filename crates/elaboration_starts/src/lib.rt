//! Starts and saves of the actor of an elaborated program: each shows no more than that of the typed program, and ends as that does. Each function of `laws` does
//! nothing, and its contract is a theorem.
#![tactic(auto)]

mod laws;

pub use laws::{
    elaborated_runs_are_kept, installs_are_followed, saves_are_followed, starts_and_saves_end,
    upgrades_are_followed,
};
