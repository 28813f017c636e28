//! The environment machine of typed programs: closures in place of substitution, and a stack in place of the expression
//! around the next reduction. It holds the definitions; each function does nothing, and its contract is a theorem about them.
#![tactic(auto)]

mod laws;
mod rows;

pub use laws::{
    actors_run_by_the_machine, executions_are_the_same, kept_states_stand_for_the_meaning,
    loading_is_undone, moves_come_to_an_end, replies_are_the_same, runs_with_kept_states_are_runs,
    steps_agree_with_reduction, steps_reach_turns, turns_are_the_same, turns_follow_in_steps,
};
pub use rows::the_machine_computes;
