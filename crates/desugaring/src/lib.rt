//! Typed programs from judged ones: derived forms are written out in the forms of typed trees, and declarations are put in the
//! order of evaluation. Each function of `rows` does nothing, and its contract is a theorem about what is written out.
#![tactic(auto)]

mod rows;

pub use rows::{forms_are_written_out, hidden_names_are_not_found, the_counter_is_written_out};
