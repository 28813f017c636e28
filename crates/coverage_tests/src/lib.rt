//! Tests that coverage is found where there is memory.
#![tactic(auto)]

#[cfg(test)]
mod small;
#[cfg(test)]
mod switches;
