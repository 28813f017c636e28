//! The writing out of forms of at most one part.
#![tactic(auto)]

mod one;
mod without;

pub use one::{
    annotated, assertion, awaiting, bang, breaking_with, endless_loop, ignoring, member, negation,
    option_of, projection, returning_with, tagged, throwing,
};
pub use without::{
    actor_reference, breaking, built_in_member, constant, continuing, name, returning, tag,
};
