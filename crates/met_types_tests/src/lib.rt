//! Tests that types are met where there is memory.
#![tactic(auto)]

#[cfg(test)]
mod meeting;
#[cfg(test)]
mod sharing;
