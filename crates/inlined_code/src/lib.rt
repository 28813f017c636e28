//! Code of routines that stands in other functions, in their locals.
#![tactic(auto)]

mod laws;

pub use laws::code_goes_inline;
