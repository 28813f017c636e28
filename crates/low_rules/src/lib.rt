//! The rule by which a routine in low code is proved: what has to hold before it, so that it ends with a result or a trap, after so
//! many steps, with so many stack words, and its line of a table holds of it.
#![tactic(auto)]

mod laws;

pub use laws::lines_are_met;
