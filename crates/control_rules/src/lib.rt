//! The rules of expressions that choose, repeat and test.
#![tactic(auto)]

mod choices;
mod jumps;

pub use choices::{
    assertion, conditional, debugging, endless_loop, grouping, ignoring, loop_while, negation,
    when, while_loop,
};
pub use jumps::{breaking, breaking_with, continuing, returning, returning_with, throwing};
