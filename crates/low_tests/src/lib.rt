//! Tests of the translation of low code, and of the builder of routines, with ample memory.
#![tactic(auto)]

#[cfg(test)]
mod building;
#[cfg(test)]
mod translation;
