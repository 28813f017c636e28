//! What is outermost in a value that was read.
ghost use Rattle.std.specs.Prelude.{◌≡◌, IfOk};
ghost use Rattle.mo_types.specs.Graph.{node_or_bottom};
ghost use Rattle.mo_types.specs.Heads.{map_option};
ghost use Rattle.mo_types.specs.Values.{arity, by_label};
ghost use Rattle.mo_values.specs.Messages.{head_of, label_at, labels};
ghost use Rattle.mo_values.specs.Shapes.{Object, Tag};
ghost use Rattle.value_arena.specs.Heads.{head_of as head_kept};

use crate::fields::{label_of, labels_of};
use arena_copies::copied_part;
use mo_num::{Bytes, Memory};
use mo_types::{Datum, Field, Node};
use part_types::in_order;
use std::alloc::Global;
use value_arena::ValueHead;

// The labels of an object.
fn object_head(alloc: Global, fields: &[Field]) -> Result<ValueHead, Memory>
    ensures { IfOk result (λ h. head_kept h ≡ Object (labels (by_label fields.now))) }
{
    let order = in_order(alloc, fields)?;
    Ok(ValueHead::Object(labels_of(alloc, order.as_slice())?))
}

// The label of a tag.
fn tag_head(alloc: Global, tags: &[Field], place: u32) -> Result<ValueHead, Memory>
    ensures { IfOk result (λ h. head_kept h ≡ Tag (label_at (labels (by_label tags.now)) place)) }
{
    let order = in_order(alloc, tags)?;
    Ok(ValueHead::Tag(label_of(alloc, order.as_slice(), place)?))
}

/// The head of a value of a type with this head, whose outermost part this is.
pub(crate) fn head_of(alloc: Global, node: Option<&Node>, part: &Datum) -> Result<ValueHead, Memory>
    ensures { IfOk result (λ h. head_kept h ≡ head_of (node_or_bottom (map_option (λ n. n.now) node.entry)) part.now) }
{
    match part {
        Datum::Present => Ok(ValueHead::Present),
        Datum::Many(_) => Ok(ValueHead::Array),
        Datum::Record(_) => match node {
            Some(Node::Object(fields)) => object_head(alloc, fields.as_slice()),
            _ => Ok(ValueHead::Tuple),
        },
        Datum::Tag(place) => match node {
            Some(Node::Variant(tags)) => tag_head(alloc, tags.as_slice(), *place),
            _ => Ok(ValueHead::Leaf(Datum::Tag(*place))),
        },
        _ => Ok(ValueHead::Leaf(copied_part(alloc, part)?)),
    }
}

/// How many values are inside a part.
pub(crate) fn arity(part: &Datum) -> u32
    ensures { result ≡ arity part.now }
{
    match part {
        Datum::Present => 1,
        Datum::Many(count) => *count,
        Datum::Record(count) => *count,
        Datum::Tag(_) => 1,
        _ => 0,
    }
}
