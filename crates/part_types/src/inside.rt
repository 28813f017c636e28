//! The types of the values inside a part, in the order of a message.
ghost use Rattle.std.specs.Prelude.{◌≡◌, slice_get, IfOk};
ghost use Rattle.mo_types.specs.Values.{by_label, copies, inside, one_type};

use crate::fields::{field_types, in_order};
use mo_num::Memory;
use mo_types::{Datum, Field, Node, TypeId};
use std::alloc::Global;

// So many times the type.
fn copied(alloc: Global, of_type: TypeId, count: u32) -> Result<Vec<TypeId>, Memory>
    ensures { IfOk result (λ ts. ts.items ≡ copies count of_type) }
{
    let mut found = Vec::new(alloc);
    for _ in 0..count {
        found.push(of_type)?;
    }
    Ok(found)
}

// The type under a tag by its place, or none.
fn tag_type(alloc: Global, tags: &[Field], place: u32) -> Result<Vec<TypeId>, Memory>
    ensures { IfOk result (λ ts. ts.items ≡ one_type (slice_get (by_label tags.now) place)) }
{
    let order = in_order(alloc, tags)?;
    let place = place as usize;
    if place < order.len() {
        Ok(Vec::from_slice(alloc, &[order[place].part])?)
    } else {
        Ok(Vec::new(alloc))
    }
}

/// The types of the values inside a part of a type with this head.
pub fn types_inside(alloc: Global, node: &Node, part: &Datum) -> Result<Vec<TypeId>, Memory>
    ensures { IfOk result (λ ts. ts.items ≡ inside node.now part.now) }
{
    match (node, part) {
        (Node::Opt(of_type), Datum::Present) => Ok(Vec::from_slice(alloc, &[*of_type])?),
        (Node::Array(of_type), Datum::Many(count)) => copied(alloc, *of_type, *count),
        (Node::Tuple(of_types), Datum::Record(_)) => {
            Ok(Vec::from_slice(alloc, of_types.as_slice())?)
        }
        (Node::Object(fields), Datum::Record(_)) => {
            let order = in_order(alloc, fields.as_slice())?;
            field_types(alloc, order.as_slice())
        }
        (Node::Variant(tags), Datum::Tag(place)) => tag_type(alloc, tags.as_slice(), *place),
        _ => Ok(Vec::new(alloc)),
    }
}
