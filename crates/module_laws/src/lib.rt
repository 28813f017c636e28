//! Laws of modules, for every writer of them: what the host's functions give and print, what stores leave in a memory, and in how
//! many bytes a module is spelled.
#![tactic(auto)]

mod laws;

pub use laws::{host_functions_have_numbers, prints_only_grow, stores_are_read};
