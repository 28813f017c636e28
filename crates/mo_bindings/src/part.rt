//! The parts of a tree that hold parts of their own kinds.
use mo_syntax::{Declaration, Expression};

/// An expression or a declaration.
#[derive(Clone, Copy)]
pub enum Part<'a> {
    Expression(&'a Expression),
    Declaration(&'a Declaration),
}
