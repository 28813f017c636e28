//! Laws of where faults of typing are: at a token of the program. Each function of `laws` does nothing, and its contract is a
//! theorem.
#![tactic(auto)]

mod laws;

pub use laws::{
    faults_are_at_tokens, faults_are_in_programs, faults_start_in_texts, numbers_are_tokens,
    the_last_token_may_be_at_fault,
};
