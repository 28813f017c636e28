//! Where the functions of a list of declarations stand in the order of evaluation.
#![tactic(auto)]

mod marks;
mod placing;
mod rounds;
mod step;
mod users;

pub use placing::places;
