//! Why a source is refused, and which values its switches miss, in words and with the lines of the source.
#![tactic(auto)]

mod accepted;
mod explanation;
mod refused;
mod shown;

pub use explanation::{Explanation, explain_source};
