//! System functions of typed programs in Core: what starts and saves end with.
#![tactic(auto)]

mod saves;
mod starts;

pub use saves::save_body;
pub use starts::start_end;
