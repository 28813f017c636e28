//! What judged programs are written out to opens no more at once than it has nodes, so that the laws of the machine hold of it. The function of `laws` does
//! nothing, and its contract is a theorem.
#![tactic(auto)]

mod laws;

pub use laws::written_out_programs_are_sized;
