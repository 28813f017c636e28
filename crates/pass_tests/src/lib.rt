//! Tests of splitting and of the conversion of closures, one behind the other, with ample memory.
#![tactic(auto)]

#[cfg(test)]
mod passes;
#[cfg(test)]
mod programs;
