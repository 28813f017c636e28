//! Laws of scopes of types. Each function of `laws` does nothing, and its contract is a theorem.
#![tactic(auto)]

mod laws;

pub use laws::{
    bounds_stay_in, classes_are_objects, lists_stay_fine, parameters_stay_fine,
    public_fields_are_plain,
};
