//! Three loops over bytes that run many lanes at a time, each equal to its plain definition at every length.
#![tactic(auto)]

mod ascii;
mod difference;
mod lines;
mod mask;
mod starts;

pub use ascii::ascii_prefix;
pub use difference::first_difference;
pub use lines::line_starts;
pub use starts::Starts;
