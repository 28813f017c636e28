//! Values of elaborated programs: which belong to those of typed programs, and that operations and patterns do alike on them. Each function
//! of `laws` does nothing, and its contract is a theorem.
#![tactic(auto)]

mod laws;

pub use laws::{messages_belong, names_belong, operations_belong, patterns_belong, values_stay};
