//! Laws of the types that are met in a program, which count for its limit. Each function of `laws` does nothing, and its contract is a
//! theorem.
#![tactic(auto)]

mod laws;

pub use laws::{
    basics_are_types, own_types_are_types, type_parameters_are_types, unused_parameters_are_types,
};
