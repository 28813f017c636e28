//! Definitions of types, and what the uses of their names stand for.
#![tactic(auto)]

mod arguments;
mod chains;
mod definitions;
mod heads;
mod laws;
mod numbers;
mod put;
mod unfolding;

pub use arguments::Arguments;
pub use chains::{Outcome, outcome_at, outcomes};
pub use definitions::{Definition, Definitions};
pub use heads::head;
pub use laws::{tables_keep_terms, terms_are_different};
pub use numbers::Numbers;
pub use put::put_in;
pub use unfolding::unfold;
