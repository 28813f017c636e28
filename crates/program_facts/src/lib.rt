//! What the front end shows of whole programs. Each function of `laws` does nothing, and its contract is a theorem.
#![tactic(auto)]

mod laws;

pub use laws::{
    programs_are_in_order, programs_are_named, programs_are_sources, programs_are_whole_sources,
    tokens_are_written,
};
