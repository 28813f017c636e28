//! The brackets that are open, and the room that they take.
ghost use Rattle.std.specs.Prelude.{◌≡◌, sum_by};
ghost use Rattle.mo_depth.specs.Stack as spec;

use crate::bracket::Bracket;
use std::collections::VecDeque;

/// The brackets that are open.
#[derive(Drop)]
pub(crate) struct Room {
    pub(crate) inner: Bracket,
    // The others, the nearest first.
    pub(crate) outer: VecDeque<Bracket>,
    // What the others take.
    pub(crate) around: usize,
    ghost summed: { around ≡ sum_by spec.outside outer.items },
}
