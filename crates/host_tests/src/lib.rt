//! Tests of what no script and no case can show.
#![tactic(auto)]

#[cfg(test)]
mod broken_writer;
#[cfg(test)]
mod commands;
#[cfg(test)]
mod memory;
#[cfg(test)]
mod unseen;
