//! A test that sources have their abstract syntax where there is memory.
#![tactic(auto)]

#[cfg(test)]
mod forms;
