//! Laws of what stands behind the declarations of programs. Each function of `laws` does nothing, and its contract is a theorem.
#![tactic(auto)]

mod laws;

pub use laws::{programs_end, shareable_types_are_seen};
