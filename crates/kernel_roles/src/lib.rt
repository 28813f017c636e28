//! What of an actor a declaration is, besides what it is in the order of evaluation.
#![tactic(auto)]

mod roles;

pub use roles::{Role, actor_role};
