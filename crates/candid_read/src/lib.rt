//! Motoko values in Candid messages (Candid specification, section "Memory"), read exactly.
#![tactic(auto)]

mod empty;
mod endless;
mod flag;
mod known;
mod number;
mod part;
mod reference;
mod skip;
mod todo;
mod values;

pub use known::Known;
pub use reference::{is_name, is_text};
pub use skip::skip_known;
pub use todo::{Goal, next, put, start};
pub use values::read_known;
