//! What is noted at a node.
use type_terms::TermId;

/// What is noted at a node that has a type: the number of its first token, and the type.
#[derive(Clone, Copy)]
pub struct Note {
    pub at: u32,
    pub kind: TermId,
}
