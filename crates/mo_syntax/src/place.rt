//! Places in a source.

/// The bytes of the source that a part of a tree was read from: those from `start` on and below `end`, counted from 0.
#[derive(Clone, Copy, Debug, PartialEq, Eq)]
pub struct Place {
    pub start: u32,
    pub end: u32,
}
