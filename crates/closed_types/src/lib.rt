//! Types put in the place of type parameters. Each function of `laws` does nothing, and its contract is a theorem about it.
#![tactic(auto)]

mod laws;

pub use laws::{
    arguments_are_within_bounds, calls_enter_environments, closings_go_by_what_is_mentioned,
    closings_keep_subtyping, depths_are_transitive, environments_close_types,
    environments_keep_subtyping, instances_are_closings, shareable_types_are_constant,
};
