//! A walk over a tree.
use std::alloc::Global;

/// A walk that finds what the names in each part mean, and which rules they break.
#[derive(Clone, Copy)]
pub struct Walk {
    pub alloc: Global,
}
