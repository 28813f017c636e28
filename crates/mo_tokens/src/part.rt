//! The parts of a tree that hold parts of their own kinds.
use mo_syntax::{Declaration, Expression};

#[derive(Clone, Copy)]
pub(crate) enum Part<'a> {
    Expression(&'a Expression),
    Declaration(&'a Declaration),
}
