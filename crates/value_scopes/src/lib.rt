//! What is known where an expression stands: the names in scope, each found in constant time, and what may be left or ended there;
//! and the types that are noted at nodes.
#![tactic(auto)]

mod bound;
mod note;
mod place;
mod scopes;
mod stack;

pub use bound::{Bound, ValueScope};
pub use note::Note;
pub use place::{Around, Body, Place};
pub use scopes::{Label, Scopes};
pub use stack::NameStack;
