//! The commands of the program, over files and sinks, and the theorem of the whole.
#![tactic(auto)]

mod check;
mod compile;
mod laws;
mod line;
mod replay;
mod run;
mod status;
mod uncovered;

pub use compile::CompileFault;
pub use laws::{built_modules_answer, one_status_law, runs_are_answered};
pub use line::tell;
pub use run::run_mo;
pub use status::{Input, Status};
