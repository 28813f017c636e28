//! Tests that names of types are found, and written types become terms, where there is memory.
#![tactic(auto)]

#[cfg(test)]
mod writing;
