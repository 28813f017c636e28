//! The names of types in scope, each found in constant time.
#![tactic(auto)]

mod built_in;
mod names;
mod scope;

pub use built_in::built_in_type;
pub use names::NamePlaces;
pub use scope::{Declared, TypeName, TypeScope};
