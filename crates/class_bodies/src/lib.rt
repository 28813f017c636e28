//! The bodies of classes.
#![tactic(auto)]

mod classes;

pub use classes::class_body;
