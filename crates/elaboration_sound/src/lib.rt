//! Events, starts and saves of the actor of a well-typed program are as elaboration asks, all but how much stands open at once. It holds the laws; each function of
//! `laws` does nothing, and its contract is a theorem about well-typed programs.
#![tactic(auto)]

mod laws;

pub use laws::{typed_actors_serve, typed_starts_stay_inside};
