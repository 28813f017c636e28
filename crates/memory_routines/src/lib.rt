//! Routines over memory in low code, each with its line: allocation, which grows the memory by what it takes; a copy of bytes to new
//! memory; comparisons of texts; and a number in digits.
#![tactic(auto)]

mod laws;
mod routines;

pub use laws::{
    allocation_keeps_its_line, comparison_keeps_its_line, copying_keeps_its_line, heaps_stay_heaps,
    numeral_keeps_its_line, ordering_keeps_its_line, routines_are_formed,
};
pub use routines::{allocation, comparison, copying, numeral, ordering};
