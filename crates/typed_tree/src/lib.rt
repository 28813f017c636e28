//! Typed programs: what the type checker gives, and what every later layer reads. It holds their values and language, and
//! when a program is well typed; each function of `laws` and `rows` does nothing, and its contract is a theorem about them.
#![tactic(auto)]

mod action;
mod expression;
mod laws;
mod literal;
mod pattern;
mod program;
mod rows;
mod signature;

pub use action::{Action, Member};
pub use expression::{Case, Form, Function, Step, TypedExpression};
pub use laws::{
    closed_expressions_stay, names_are_bound, names_have_values, operations_keep_types,
    patterns_see_no_function, substitutions_compose, trees_stand_for_expressions,
    typing_goes_by_the_rules, values_and_shapes_are_the_same, weights_see_no_function,
};
pub use literal::Literal;
pub use pattern::{PatternField, PatternForm, TypedPattern};
pub use program::{Method, Program, StableVariable};
pub use rows::{
    orders_are_as_wanted, patterns_are_as_wanted, small_actors_are_judged,
    small_functions_are_judged, values_inside_are_as_wanted,
};
pub use signature::{StableField, StableSig, stable_sig};
