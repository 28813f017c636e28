//! What reads types and binds names while expressions are judged.
#![tactic(auto)]

mod naming;
mod reading;

pub use naming::{stands, unbind};
pub use reading::{reads, reads_or, reads_or_unit};
