//! The exact lexer of Motoko: a source's tokens with their places, or the first fault.
#![tactic(auto)]

mod class;
mod comment;
mod escape;
mod fault;
mod front;
mod lexer;
mod lines;
mod literal;
mod name;
mod number;
mod piece;
mod sign;
mod stop;

pub use fault::LexFault;
pub use lexer::{MOST_BYTES, lex};
pub use lines::line_column;
