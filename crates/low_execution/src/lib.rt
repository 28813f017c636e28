//! Low modules under the host: what their executions come to, where the host enters them, and what they begin with.
#![tactic(auto)]

mod laws;

pub use laws::formed_modules_are_never_lost;
