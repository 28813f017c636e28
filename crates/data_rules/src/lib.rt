//! The rules of tuples, options and variants.
#![tactic(auto)]

mod options;
mod tuples;
mod variants;

pub use options::{bang, do_option, option_of};
pub use tuples::tuple;
pub use variants::{tag, tagged};
