//! What judges expressions as the bodies of functions.
#![tactic(auto)]

mod bodies;

pub use bodies::judge_body;
