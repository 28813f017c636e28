//! Whether what stands before the bodies of functions, classes and public functions is as it has to be, and the names that it binds.
#![tactic(auto)]

mod binding;
mod context;
mod kinds;
mod naming;
mod shareable;
mod taking;
mod written;

pub use context::context_of;
pub use naming::{class_signature, function_signature, method_signature};
pub use taking::{Taken, parameters};
