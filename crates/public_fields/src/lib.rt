//! Whether the public fields of a list are such as objects and classes have.
#![tactic(auto)]

mod fields;

pub use fields::public_fields;
