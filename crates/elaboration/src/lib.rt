//! Elaboration: typed programs as programs of nested expressions. It holds the function, and each function of `rows` does
//! nothing, and its contract is a theorem about it.
#![tactic(auto)]

mod laws;
mod rows;

pub use laws::checks_decide;
pub use rows::{
    actors_are_as_wanted, catches_are_as_wanted, ledgers_are_as_wanted, orders_are_as_wanted,
    texts_are_as_wanted, upgrades_are_as_wanted, waits_are_as_wanted, weights_are_within,
};
