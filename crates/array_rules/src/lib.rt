//! The rules of arrays.
#![tactic(auto)]

mod arrays;
mod elements;

pub use arrays::{array, mutable_array};
