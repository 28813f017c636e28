//! Whether patterns stand on types, what they bind, and the types of their parts.
#![tactic(auto)]

mod head;
mod leaves;
mod literal;
mod making;
mod walk;

pub use walk::stands;
