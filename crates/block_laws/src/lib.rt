//! Laws of whole lists of declarations. Each function of `laws` does nothing, and its contract is a theorem.
#![tactic(auto)]

mod laws;

pub use laws::{
    bodies_are_made, lists_are_made, lists_are_signed, lists_are_walked, orders_are_made,
};
