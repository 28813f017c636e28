//! What a new program takes over of one stable variable.
use value_arena::ValueId;

/// Nothing where the old program has no variable of the name, or else its value, if it is one of the new type.
#[derive(Clone, Copy)]
pub enum Taken {
    Fresh,
    Kept(ValueId),
    Incompatible,
}
