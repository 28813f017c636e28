//! Whether the types of a header are equal to declared ones.
#![tactic(auto)]

mod ask;
mod pair;
mod search;
mod types;

pub use pair::Pair;
pub use search::are_equal;
pub use types::has_types;
