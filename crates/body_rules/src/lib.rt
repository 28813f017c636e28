//! The bodies of a list's functions, public functions and classes, and its other declarations, which are given as they are.
#![tactic(auto)]

mod declarations;

pub use declarations::judge_declaration;
