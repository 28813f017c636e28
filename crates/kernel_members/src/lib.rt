//! Members, elements and calls by the heads of types.
#![tactic(auto)]

mod calls;
mod elements;
mod fields;
mod members;

pub use calls::call;
pub use elements::{element, element_number, element_place};
pub use fields::field_number;
pub use members::{Access, field, member};
