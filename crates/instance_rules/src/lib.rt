//! Functions with type parameters: which callees are such, and their types at type arguments.
#![tactic(auto)]

mod arguments;
mod bounds;
mod callees;

pub use arguments::instance;
pub use callees::{Generic, polymorphic};
