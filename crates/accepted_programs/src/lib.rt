//! That the program which an accepted source is written out to is well typed. Each function of `laws` does nothing, and its contract is a theorem.
#![tactic(auto)]

mod laws;

pub use laws::{
    graphs_of_trees_are_lawful, programs_of_sources_are_well_typed,
    programs_of_trees_are_well_typed,
};
