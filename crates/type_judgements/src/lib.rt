//! Judgements of the rules of typing, as code comes to them: types are met, conditions are asked, and one part follows another.
#![tactic(auto)]

mod laws;
mod refusal;
mod steps;

pub use laws::parts_are_judged_in_turn;
pub use refusal::Refusal;
pub use steps::{meets, needs_below, tests};
