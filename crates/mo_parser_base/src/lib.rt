//! What the parser is made of: a cursor over tokens with the steps that every rule is made of, and the depth of tokens.
#![tactic(auto)]

mod cursor;
mod lists;
mod look;
mod stop;

pub use cursor::{Cursor, same_mark};
pub use lists::{read_commas, read_semicolons, read_some_semicolons};
pub use look::Look;
pub use stop::Stop;
