//! Types that are made of other types of a program.
#![tactic(auto)]

mod kinds;

pub use kinds::{actor, any, bottom, class, function, object, shared, unit};
