//! The names of types that type parameters and lists of declarations bring into scope.
#![tactic(auto)]

mod scopes;

pub use scopes::{push_generics, push_list, push_names};
