//! Subtyping of Motoko types, with a certificate for either answer.
#![tactic(auto)]

mod ask;
mod labels;
mod laws;
mod pairs;
mod search;

pub use laws::{closed_pairs_hold, renaming_keeps_subtyping};
pub use pairs::{Pair, Pairs};
pub use search::{Verdict, subtype};
