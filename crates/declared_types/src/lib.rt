//! The types of functions and classes by what is written of them.
#![tactic(auto)]

mod signatures;

pub use signatures::{
    Otherwise, annotation, class_term, class_type, function_term, parameter_terms, term_or, written,
};
