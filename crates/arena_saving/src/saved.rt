//! What saving comes to.
use arena_states::GroupOf;
use mo_num::{Bytes, Sequence};
use mo_types::Datum;

/// An actor that has saved: the parts of each stable variable at its type, and what was printed on the way.
#[derive(Drop)]
pub struct Keeping<'a> {
    /// The groups of functions, by their numbers.
    pub table: Vec<GroupOf<'a>>,
    pub prints: Sequence<Bytes>,
    pub parts: Vec<Vec<Datum>>,
}

/// What saving comes to over so many turns, with the groups of functions that are known then.
#[derive(Drop)]
pub enum Saved<'a> {
    /// It needs more turns.
    Still(Vec<GroupOf<'a>>),
    /// It traps with this text, behind these prints.
    Traps(Vec<GroupOf<'a>>, Sequence<Bytes>, Bytes),
    Keeps(Keeping<'a>),
}
