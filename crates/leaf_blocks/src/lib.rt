//! Blocks of values without parts inside them: of texts and what else is in bytes, of shared functions, and of errors.
#![tactic(auto)]

mod laws;

pub use laws::{
    blocks_are_added, bytes_are_made, bytes_are_ready, bytes_are_there, errors_are_made,
    methods_are_made, words_are_added,
};
