//! The walk that makes the abstract syntax of types of a syntax tree.
#![tactic(auto)]

mod type_making;
mod type_walk;

pub use type_making::{
    abstract_annotation, abstract_generics, abstract_type, abstract_type_arguments,
};
