//! Whether the cases of a `switch` cover the type that it is on, part by part where it is a variant or an option.
#![tactic(auto)]

mod alternatives;
mod covering;
mod options;
mod payloads;
mod within;

pub use covering::covers;
