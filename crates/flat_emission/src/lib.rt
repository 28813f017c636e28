//! Plain functions of structured code as low code.
#![tactic(auto)]

mod laws;

pub use laws::frames_are_paid;
