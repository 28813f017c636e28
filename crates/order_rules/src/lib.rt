//! The rules of what is evaluated in the order of a list: `let`, `var`, objects and expressions, and the list of them.
#![tactic(auto)]

mod entries;
mod objects;
mod ordering;
mod patterns;
mod values;
mod variables;

pub use entries::{MadeDeclaration, MadeRun};
pub use ordering::judge_order;
