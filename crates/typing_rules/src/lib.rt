//! The rules of typing, one for each form of the language, and what follows from them: a program is typed in one way, or
//! one condition is false at one place. Each function of `laws` and `rows` does nothing, and its contract is a theorem about
//! the rules.
#![tactic(auto)]

mod condition;
mod laws;
mod rows;

pub use condition::Condition;
pub use laws::{
    judgements_go_by_their_parts, judgements_have_answers, judgements_have_one_answer,
    parts_are_as_long_as_written, programs_have_one_answer,
};
pub use rows::{
    nodes_are_limited, nodes_have_types, patterns_stand, places_are_right, programs_are_typed,
    types_are_limited, types_fit, values_have_forms, written_types_are_right,
};
