//! Steps of rules: types that are met, and conditions that types are below others.
#![tactic(auto)]

mod asking;
mod meeting;

pub use asking::needs_each_below;
pub use meeting::{meets_each, meets_kind};
