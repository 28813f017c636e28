//! Values that stand in the code.
use mo_types::Datum;

/// A value that stands in the code.
#[derive(Drop)]
pub enum Constant {
    /// `()`
    Unit,
    /// A value without values inside it.
    Leaf(Datum),
}
