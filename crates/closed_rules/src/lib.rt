//! The rules of typing where types stand in the place of type parameters. Each function of `laws` does nothing, and its
//! contract is a theorem about it.
#![tactic(auto)]

mod laws;

pub use laws::{
    actions_are_closed, calls_of_shared_functions_stay, equality_stays, members_are_closed,
    operations_are_closed, shareable_types_stay,
};
