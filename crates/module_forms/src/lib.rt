//! The low module of a program is formed.
#![tactic(auto)]

mod laws;

pub use laws::{
    functions_are_formed, modules_are_formed, programs_are_small, programs_are_spelled,
};
