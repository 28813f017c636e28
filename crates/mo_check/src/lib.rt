//! The checker: a syntax tree becomes a typed program, or is refused at its first condition that is false.
#![tactic(auto)]

mod checking;
mod fault;
mod names;

pub use checking::check;
pub use fault::TypeFault;
pub use names::condition_name;
