//! What the codes of primitives find in a program's low module, and the heap that it begins with.
#![tactic(auto)]

mod laws;

pub use laws::{memories_begin, modules_are_linked, primitives_are_kept};
