//! The operands of operators: on which types operators stand, and how an operand that is a literal is judged.
#![tactic(auto)]

mod families;
mod heads;
mod literals;
mod pairs;

pub use families::{Family, family_of};
pub use heads::{is_ordered, negated_of, number_with, wanted_signed, wanted_with};
pub use literals::plain_number;
pub use pairs::{OperandPair, operands};
