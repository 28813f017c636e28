//! Whether the cases of a `switch` cover the type that it is on, and a shape of values that they miss.
#![tactic(auto)]

mod columns;
mod cutting;
mod leaves;
mod literals;
mod marks;
mod missing;
mod opening;
mod pieces;
mod shape;
mod tagged;
mod tags;

pub use leaves::{is_among, is_literal_number, leaf_at};
pub use missing::{Cover, covers};
pub use shape::Shape;
pub use tags::is_label_among;
