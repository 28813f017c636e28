//! Runs of well-typed programs are runs of the programs that are elaborated of them, where nothing is exhausted. It holds the law; the function of `laws` does
//! nothing, and its contract is a theorem.
#![tactic(auto)]

mod laws;

pub use laws::typed_runs_are_elaborated;
