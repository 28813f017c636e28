//! The modules of constant queries: what stands in them, and how a host runs them.
#![tactic(auto)]

mod build;
mod laws;
mod parts;
mod reply;

pub use build::build_queries;
pub use laws::{queries_settle, refined_modules_answer, runs_are_answers};
