//! Judged programs are as elaboration asks, and so runs of what is elaborated of them are theirs. It holds the laws; each function of `laws` does nothing, and its
//! contract is a theorem.
#![tactic(auto)]

mod laws;

pub use laws::{
    judged_programs_are_formed, judged_programs_are_sound, judged_runs_are_elaborated,
    judged_runs_are_kept,
};
