//! What a host and a module find in each other: the functions of `ic0` that a module imports, and those of its own by
//! which the host enters it (IC interface specification, sections Overview of imports and Entry points).
#![tactic(auto)]

mod entries;
mod imports;

pub use entries::{callback_function, exported, start_function};
pub use imports::imported_functions;
