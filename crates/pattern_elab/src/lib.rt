//! Patterns: the tests by which a `switch` finds the first case that matches.
#![tactic(auto)]

mod decision;
mod laws;
mod literal;
mod making;
mod rows;
mod switch;

pub use decision::{Place, Question, Target, Test, Tests};
pub use laws::tests_choose_the_first_match;
pub use rows::cases_are_as_wanted;
pub use switch::cases;
