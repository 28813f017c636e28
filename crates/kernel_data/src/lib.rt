//! The writing out of tuples, arrays, objects and calls.
#![tactic(auto)]

mod data;

pub use data::{array, calling, object, tuple};
