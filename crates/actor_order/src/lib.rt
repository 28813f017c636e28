//! Laws of the order in which the declarations of actors are evaluated. Each function of `laws` does nothing, and its contract is a theorem.
#![tactic(auto)]

mod laws;

pub use laws::actors_are_in_order;
