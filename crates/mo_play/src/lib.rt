//! Playing a script: which bytes are modules that can be played, and the transcript of the events.
#![tactic(auto)]

mod judging;
mod transcript;

pub use judging::{JudgeFault, ModuleFault, judge};
pub use transcript::play;
