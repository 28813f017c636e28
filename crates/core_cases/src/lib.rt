//! Choices by patterns of typed programs in Core.
#![tactic(auto)]

mod cases;

pub use cases::switch;
