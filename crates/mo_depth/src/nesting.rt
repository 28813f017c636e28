//! The brackets that are open.
ghost use Rattle.std.specs.Prelude.{◌≡◌};
ghost use Rattle.mo_depth.specs.Depth as spec;

use crate::frame::Frame;
use std::collections::VecDeque;

#[derive(Drop)]
pub(crate) struct Nesting {
    pub(crate) inner: Frame,
    // The others, the nearest first.
    pub(crate) outer: VecDeque<Frame>,
    pub(crate) depth: usize,
    ghost summed: { depth ≡ spec.depth (inner, outer.items) },
}
