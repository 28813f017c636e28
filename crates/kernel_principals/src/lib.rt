//! The principals of actor references.
#![tactic(auto)]

mod principals;

pub use principals::principal;
