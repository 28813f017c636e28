//! Routines and the functions that the host enters become one low module, and the frame of each routine is measured.
#![tactic(auto)]

mod frames;
mod laws;
mod linking;
mod parts;

pub use frames::frame_words;
pub use laws::routines_are_placed;
pub use linking::{Entry, LinkFault, Surroundings, link};
