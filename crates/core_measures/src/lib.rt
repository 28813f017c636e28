//! Whether a program of nested expressions stays within the measures of its bodies: how deep they nest, what their frames take, what groups pay for, and how
//! many segments there are.
#![tactic(auto)]

mod measures;
mod names;
mod naming;
mod paying;
mod sizes;
mod walk;
mod within;

pub use within::is_within;
