//! Arithmetic of numbers in low code, each routine with its line.
#![tactic(auto)]

mod arithmetic;
mod forms;
mod laws;
mod places;
mod powers;
mod short_forms;

pub use arithmetic::{add, div, mul, negate, order, rem, sameness, sub, wrap};
pub use laws::{
    arithmetic_keeps_its_line, negation_keeps_its_line, order_keeps_its_line, power_keeps_its_line,
    sameness_keeps_its_line, wrapping_keeps_its_line,
};
pub use places::TrapPlaces;
pub use powers::power;
