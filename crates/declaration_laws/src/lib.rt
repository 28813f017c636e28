//! Laws of what declarations of lists are written out to. Each function of `laws` does nothing, and its contract is a theorem.
#![tactic(auto)]

mod laws;

pub use laws::{
    blocks_are_typed, classes_are_typed, declared_functions_are_typed, functions_are_facts,
    lets_are_typed, named_objects_are_typed, objects_are_typed, signatures_are_known,
    stable_steps_are_facts, stable_variables_are_typed, steps_are_facts, values_are_facts,
    values_are_typed, variables_are_typed,
};
