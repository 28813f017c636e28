//! What stands around an expression while it is written out: the names, each found in constant time, and what can be left.
#![tactic(auto)]

mod exits;
mod frames;
mod names;

pub use exits::{Exit, Exits, Leaving};
pub use frames::Frames;
pub use names::{Mark, Use};
