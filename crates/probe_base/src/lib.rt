//! What the commands of `mo_probe` share: why there is no answer, and words as numbers, bytes and text.
#![tactic(auto)]

mod stop;
mod text;

pub use stop::Stop;
pub use text::{bytes_of, hex_line, number_of, put_text, text_of, yes_or_no};
