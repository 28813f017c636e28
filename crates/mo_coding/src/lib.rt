//! That a faithful coding exists: how the values of messages and of stable memory become bytes, and back, as functions that
//! meet the definitions of Candid. It holds the functions; each function of Rattle does nothing, and its contract is a theorem
//! about them.
#![tactic(auto)]

mod laws;
mod rows;

pub use laws::{
    a_faithful_coding_exists, numbers_are_spelled, reached_types_are_counted, types_are_told_apart,
    types_are_visited,
};
pub use rows::{messages_are_as_wanted, types_are_as_wanted};
