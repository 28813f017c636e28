//! Laws of the passes between the core languages: splitting, and the conversion of closures. Both are functions here; each
//! function of `laws` and `rows` does nothing, and its contract is a theorem about them.
#![tactic(auto)]

mod laws;
mod rows;

pub use laws::{
    conversion_carries_actors, conversion_carries_executions, conversion_keeps_form,
    formed_programs_qualify, formed_split_programs_qualify, passes_carry_actors,
    passes_carry_executions, programs_settle, splitting_carries_actors,
    splitting_carries_executions, splitting_keeps_form,
};
pub use rows::{
    converted_examples_are_as_wanted, examples_are_formed, examples_are_nested,
    examples_weigh_as_bounded, split_examples_are_as_wanted,
};
