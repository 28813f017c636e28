//! The rules of members, of parts of tuples and of elements of arrays.
#![tactic(auto)]

mod elements;
mod kinds;
mod members;
mod module_members;

pub use elements::{index, projection};
pub use members::member;
pub use module_members::given_member;
