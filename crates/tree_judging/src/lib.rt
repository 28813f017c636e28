//! The judging of whole expressions and whole lists of declarations, by one recursion over the rules.
#![tactic(auto)]

mod recursion;

pub use recursion::judge_list;
