//! Tests that the machine over an arena runs small programs where there is memory.
#![tactic(auto)]

#[cfg(test)]
mod building;
#[cfg(test)]
mod programs;
#[cfg(test)]
mod runs;
