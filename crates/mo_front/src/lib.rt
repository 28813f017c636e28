//! From the bytes of a source to its typed program, or to the first fault of the first layer that refuses it, with its place.
#![tactic(auto)]

mod fault;
mod laws;
mod lines;
mod reading;

pub use fault::FrontFault;
pub use laws::{
    a_source_has_one_answer, accepted_programs_are_well_typed, faults_of_typing_start_tokens,
};
pub use lines::line_and_column;
pub use reading::{front, token_start};
