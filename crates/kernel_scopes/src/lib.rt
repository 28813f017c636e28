//! The writing out of parts with what stands around them: names that are bound, and what can be left.
#![tactic(auto)]

mod scopes;

pub use scopes::{
    continued, continued_with, enter_parameters, enter_pattern, function_body, with_pattern,
};
