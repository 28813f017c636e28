//! What bodies of programs are like that come from sources: how deep what stands in them nests. Each function of `laws` does nothing, and its contract is a
//! theorem.
#![tactic(auto)]

mod laws;

pub use laws::{expressions_nest, programs_nest};
