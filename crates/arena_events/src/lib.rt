//! The events in the life of an actor over an arena: calls that come in, and answers to calls that it made.
#![tactic(auto)]

mod answering;
mod calling;
mod filling;
mod methods;

pub use answering::answer;
pub use calling::{Incoming, receive};
pub use filling::Received;
