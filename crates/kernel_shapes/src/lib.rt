//! Which forms of expression are written out by what their part is.
#![tactic(auto)]

mod kinds;
mod shapes;

pub use kinds::{Looped, Place, looped_form, number_form, place_form};
