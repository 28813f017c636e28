//! When a module does what the actor of a program does, once for all languages of the compiler. It holds the definitions;
//! each function does nothing, and its contract is a theorem about them.
#![tactic(auto)]

mod laws;
mod rows;

pub use laws::{
    fewer_events_are_refined, host_runs_are_actor_runs, measured_refinement_is_refinement,
    passes_carry_refinement, refined_segments_are_alike, scripts_are_sound, simulations_refine,
};
pub use rows::borders_are_as_wanted;
