//! Steps of elaborated programs: which states of Core's machine belong to those of the machine of typed programs, and that Core follows
//! each of that machine's steps. Each function of `laws` does nothing, and its contract is a theorem.
#![tactic(auto)]

mod laws;

pub use laws::{
    bodies_begin, moves_are_followed, reductions_are_followed, stacks_are_as_deep, ways_are_runs,
};
