//! Laws of the passes between the core languages on whole actors: over each list of events the actor of a new program does what that of
//! the old one does, as long as that does not break. Each function of `laws` does nothing, and its contract is a theorem.
#![tactic(auto)]

mod laws;
mod rows;

pub use laws::{conversion_keeps_actors, passes_keep_actors, splitting_keeps_actors};
pub use rows::quiet_actors_are_unbroken;
