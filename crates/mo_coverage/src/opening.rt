//! What a pattern opens of the values of which something is known.
ghost use Rattle.std.specs.Prelude.{◌≡◌, IfOk, Some};
ghost use Rattle.pattern_coverage.specs.Followed.{value_head};
ghost use Rattle.pattern_coverage.specs.Inhabited.{in_table};
ghost use Rattle.pattern_coverage.specs.Known.{NotUnder, Unknown};
ghost use Rattle.mo_types.specs.declared.node.Node.TheVariants as node;
ghost use Rattle.mo_coverage.specs.Opened.{opened_in, part_in};
ghost use Rattle.mo_coverage.specs.Openings.{if_so, nothing, opened_new, opened_old, opened_option, opened_tag};
ghost use Rattle.mo_coverage.specs.Places.{seat_of, tag_left};
ghost use Rattle.mo_coverage.specs.Shapes.{known, one_known};

use crate::shape::Shape;
use crate::tags::{is_label_among, seat_of, tag_left};
use mo_num::{Bytes, Memory, Sequence};
use mo_types::{Datum, Field, Node, TypeGraph, TypeId};
use pattern_coverage::{is_in, value_node};
use std::alloc::Global;

/// A piece that is not matched, the part of the values that a pattern looks into, and a further piece that is not matched.
#[derive(Drop)]
pub(crate) struct Opened {
    pub before: Option<Shape>,
    pub inside: Option<(TypeId, Shape)>,
    pub after: Option<Shape>,
}

fn nothing(shape: Shape) -> Opened
    ensures { opened_in result ≡ nothing (known shape) }
{
    Opened {
        before: Some(shape),
        inside: None,
        after: None,
    }
}

// The part of this type, of which nothing is known, where there are values of it.
#[tactic(auto, unfolding(crate::specs::Shapes::known))]
fn there(table: &[bool], part: TypeId) -> Option<(TypeId, Shape)>
    ensures { part_in result ≡ if_so (in_table table.now part) (part, Unknown) }
{
    if is_in(table, part) {
        Some((part, Shape::Unknown))
    } else {
        None
    }
}

// What the pattern `?p` opens at a type with this head.
#[tactic(auto, unfolding(crate::specs::Shapes::known))]
fn option_of(table: &[bool], node: &Node, shape: Shape) -> Opened
    ensures { opened_in result ≡ opened_option (in_table table.now) node.now (known shape) }
{
    match node {
        Node::Opt(part) => match shape {
            Shape::Unknown => Opened {
                before: Some(Shape::Is(Datum::Null)),
                inside: there(table, *part),
                after: None,
            },
            Shape::Holds(inside) => Opened {
                before: None,
                inside: Some((*part, Box::into_inner(inside))),
                after: None,
            },
            other => nothing(other),
        },
        _ => nothing(shape),
    }
}

// What a tag opens that is none of these.
#[tactic(auto, unfolding(crate::specs::Shapes::known))]
fn open_new(
    alloc: Global,
    table: &[bool],
    label: &Bytes,
    met: Sequence<Bytes>,
    tags: &[Field],
    part: TypeId,
) -> Result<Opened, Memory>
    ensures { IfOk result (λ opened. opened_in opened ≡ opened_new (in_table table.now) label.now met Unknown tags.now (Some (0, part))) }
{
    let mut met = met.into_vec();
    met.insert(0, Bytes::from_slice(alloc, label.as_slice())?)?;
    let inside = there(table, part);
    let after = after_tags(table, tags, met);
    Ok(Opened {
        before: None,
        inside,
        after,
    })
}

// The tags besides these, where some are left.
#[tactic(auto, unfolding(crate::specs::Shapes::known))]
fn after_tags(table: &[bool], tags: &[Field], met: Vec<Bytes>) -> Option<Shape>
    ensures { one_known result ≡ if_so (tag_left (in_table table.now) tags.now met.items) (NotUnder met.items) }
{
    if tag_left(table, tags, met.as_slice()) {
        Some(Shape::NotUnder(Sequence::from_vec(met)))
    } else {
        None
    }
}

// What a tag opens under that same tag.
#[tactic(auto, unfolding(crate::specs::Shapes::known))]
fn open_old(label: Bytes, inside: Box<Shape>, tags: &[Field]) -> Opened
    ensures { opened_in result ≡ opened_old label (known inside.value) (seat_of label tags.now) }
{
    match seat_of(tags, label.as_slice()) {
        Some((_, part)) => Opened {
            before: None,
            inside: Some((part, Box::into_inner(inside))),
            after: None,
        },
        None => nothing(Shape::Under(label, inside)),
    }
}

// What a tag opens of a variant.
#[tactic(auto, unfolding(crate::specs::Shapes::known))]
fn open_variant(
    alloc: Global,
    table: &[bool],
    label: &Bytes,
    tags: &[Field],
    shape: Shape,
) -> Result<Opened, Memory>
    ensures { IfOk result (λ opened. opened_in opened ≡ opened_tag (in_table table.now) label.now (node.Variant tags.now) (known shape)) }
{
    match shape {
        Shape::Unknown => match seat_of(tags, label.as_slice()) {
            Some((_, part)) => open_new(alloc, table, label, Sequence::new(alloc), tags, part),
            None => Ok(nothing(Shape::Unknown)),
        },
        Shape::NotUnder(met) => {
            if is_label_among(label.as_slice(), met.as_slice()) {
                return Ok(nothing(Shape::NotUnder(met)));
            }
            match seat_of(tags, label.as_slice()) {
                Some((_, part)) => open_new(alloc, table, label, met, tags, part),
                None => Ok(nothing(Shape::NotUnder(met))),
            }
        }
        Shape::Under(tag, inside) => {
            if label.as_slice() == tag.as_slice() {
                Ok(open_old(tag, inside, tags))
            } else {
                Ok(nothing(Shape::Under(tag, inside)))
            }
        }
        other => Ok(nothing(other)),
    }
}

/// What the pattern `?p` opens.
pub(crate) fn open_option(types: &TypeGraph, table: &[bool], id: TypeId, shape: Shape) -> Opened
    ensures { opened_in result ≡ opened_option (in_table table.now) (value_head types.now id) (known shape) }
{
    match value_node(types, id) {
        Some(node) => option_of(table, node, shape),
        None => nothing(shape),
    }
}

/// What a tag opens.
pub(crate) fn open_tag(
    alloc: Global,
    types: &TypeGraph,
    table: &[bool],
    label: &Bytes,
    id: TypeId,
    shape: Shape,
) -> Result<Opened, Memory>
    ensures { IfOk result (λ opened. opened_in opened ≡ opened_tag (in_table table.now) label.now (value_head types.now id) (known shape)) }
{
    match value_node(types, id) {
        Some(Node::Variant(tags)) => open_variant(alloc, table, label, tags.as_slice(), shape),
        _ => Ok(nothing(shape)),
    }
}
