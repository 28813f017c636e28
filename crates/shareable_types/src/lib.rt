//! Which types' values may be sent to other actors, and which may be compared.
#![tactic(auto)]

mod forms;
mod laws;
mod needs;
mod rounds;
mod sharing;

pub use laws::sharing_stays;
pub use sharing::Sharing;
