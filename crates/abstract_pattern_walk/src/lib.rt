//! The walk that makes the abstract syntax of patterns and signatures of a syntax tree.
#![tactic(auto)]

mod pattern_making;
mod pattern_walk;

pub use pattern_making::{
    abstract_object_pattern, abstract_parameters, abstract_pattern, abstract_public_signature,
    abstract_signature,
};
