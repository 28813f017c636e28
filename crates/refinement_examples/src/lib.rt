//! Modules by hand that refine programs, so that what is asked of modules can be met. Each function does nothing; its contract
//! is a theorem about the definitions.
#![tactic(auto)]

mod laws;

pub use laws::{calling_modules_refine, growing_modules_refine, waiting_modules_refine};
