//! Shapes as patterns.
ghost use Rattle.std.specs.Prelude.{◌≡◌, ◌++◌, Bool, IfOk, OnOk, false, slice_get};
ghost use Rattle.std.specs.Option.{option_copied};
ghost use Rattle.mo_syntax.specs.declared.token.TokenKind.{TokenKind};
ghost use Rattle.mo_syntax.specs.Writing.{commas, semicolons};
ghost use Rattle.mo_types.specs.Sub.{find};
ghost use Rattle.mo_types.specs.declared.node.Node.{Node};
ghost use Rattle.mo_types.specs.declared.node.TypeId.{TypeId};
ghost use Rattle.pattern_coverage.specs.Followed.{value_head};
ghost use Rattle.pattern_coverage.specs.Inhabited.{in_table};
ghost use Rattle.mo_coverage.specs.Shapes.{all_known, known, knowns};
ghost use Rattle.shape_patterns.specs.Choice.{literal_left};
ghost use Rattle.shape_patterns.specs.Listing.{at_type, field_at, lead};
ghost use Rattle.shape_patterns.specs.Stands.{any_of, at_node, field_pattern, field_patterns, if_new, never, other_of, part_patterns, shape_pattern, tagged};
ghost use Rattle.shape_patterns.specs.Writes.{IsCase, case_tokens, field_writings, is_unit, part_writings, pattern_writing, payload_writing};

use crate::choice::{literal_left, tag_left};
use crate::leaf::{put_literal, put_mark, put_name, put_tag, put_wildcard, put_word};
use mo_coverage::{Shape, is_among};
use mo_num::{Bytes, Memory};
use mo_syntax::{Kinds, Mark, Word};
use mo_types::{Datum, Field, Node, TypeGraph, TypeId};
use mo_unparse::spell;
use pattern_coverage::value_node;
use std::alloc::Global;

// Whether a type is `()`.
fn is_unit_type(node: &Node) -> bool
    ensures { result ≡ is_unit (any_of node.now) }
{
    match node {
        Node::Tuple(ids) => ids.is_empty(),
        _ => false,
    }
}

// Whether nothing stands behind a tag.
#[tactic(auto, unfolding(mo_coverage::specs::Shapes::known))]
fn is_bare(node: &Node, shape: &Shape) -> bool
    ensures { (head : TypeId → Node TypeId) (has : TypeId → Bool) → result ≡ is_unit (at_node head has (known shape.now) node.now) }
{
    match node {
        Node::Tuple(ids) => match shape {
            Shape::Unknown => ids.is_empty(),
            Shape::Parts(parts) => parts.as_slice().is_empty(),
            _ => false,
        },
        _ => false,
    }
}

// A pattern that matches nothing: for a shape that is none of the type, of which there is none.
fn put_never(out: &mut Kinds) -> Result<(), Memory>
    ensures { OnOk result (out.new ≡ out.old ++ pattern_writing never) }
{
    put_mark(out, Mark::BraceOpen)?;
    put_mark(out, Mark::BraceClose)
}

fn type_at(ids: &[TypeId], place: usize) -> Option<&TypeId>
    ensures { option_copied result ≡ slice_get ids.now place }
{
    ids.get(place)
}

fn label_at(labels: &[Bytes], place: usize) -> Option<&Bytes>
    ensures { option_copied result ≡ slice_get labels.now place }
{
    labels.get(place)
}

// The mark in front of each but the first.
fn put_lead(place: usize, mark: Mark, out: &mut Kinds) -> Result<(), Memory>
    ensures { OnOk result (out.new ≡ out.old ++ lead (TokenKind.Mark mark) place) }
{
    if place == 0 {
        return Ok(());
    }
    put_mark(out, mark)
}

// Any value of a type.
fn put_any(node: &Node, out: &mut Kinds) -> Result<(), Memory>
    ensures { OnOk result (out.new ≡ out.old ++ pattern_writing (any_of node.now)) }
{
    if is_unit_type(node) {
        put_mark(out, Mark::ParenOpen)?;
        return put_mark(out, Mark::ParenClose);
    }
    put_wildcard(out)
}

// The same behind a tag.
fn put_any_payload(node: &Node, out: &mut Kinds) -> Result<(), Memory>
    ensures { OnOk result (out.new ≡ out.old ++ payload_writing (any_of node.now)) }
{
    if is_unit_type(node) {
        return Ok(());
    }
    put_any(node, out)
}

// The first field of the label.
fn find<'a>(fields: &'a [Field], label: &[u8]) -> Option<&'a Field>
    ensures { option_copied result ≡ find label.now fields.now }
{
    for field in fields {
        if field.label.as_slice() == label {
            return Some(field);
        }
    }
    None
}

// A tag that is left, with any value.
fn put_other_tag(
    alloc: Global,
    types: &TypeGraph,
    tag: Option<&Field>,
    out: &mut Kinds,
) -> Result<(), Memory>
    ensures { OnOk result (out.new ≡ out.old ++ pattern_writing (other_of (λ u. any_of (value_head types.now u)) (option_copied tag.entry))) }
{
    match tag {
        Some(field) => {
            put_tag(alloc, field.label.as_slice(), out)?;
            match value_node(types, field.part) {
                Some(node) => put_any_payload(node, out),
                None => put_any_payload(&Node::Bottom, out),
            }
        }
        None => put_never(out),
    }
}

/// Adds the pattern that stands for a shape. The recursion is as deep as the shape, and so as deep as a pattern.
#[cycle(shape)]
fn put_shape(
    alloc: Global,
    types: &TypeGraph,
    table: &[bool],
    shape: &Shape,
    id: TypeId,
    out: &mut Kinds,
) -> Result<(), Memory>
    ensures { OnOk result (out.new ≡ out.old ++ pattern_writing (shape_pattern (value_head types.now) (in_table table.now) (known shape.now) id)) }
{
    match value_node(types, id) {
        Some(node) => put_at(alloc, types, table, shape, node, out),
        None => put_at(alloc, types, table, shape, &Node::Bottom, out),
    }
}

// The same behind a tag.
#[cycle(shape)]
fn put_payload(
    alloc: Global,
    types: &TypeGraph,
    table: &[bool],
    shape: &Shape,
    node: &Node,
    out: &mut Kinds,
) -> Result<(), Memory>
    ensures { OnOk result (out.new ≡ out.old ++ payload_writing (at_node (value_head types.now) (in_table table.now) (known shape.now) node.now)) }
{
    if is_bare(node, shape) {
        return Ok(());
    }
    put_at(alloc, types, table, shape, node, out)
}

// A tag, if there is one, with a value.
#[cycle(shape)]
fn put_tagged(
    alloc: Global,
    types: &TypeGraph,
    table: &[bool],
    label: &[u8],
    shape: &Shape,
    tag: Option<&Field>,
    out: &mut Kinds,
) -> Result<(), Memory>
    ensures { OnOk result (out.new ≡ out.old ++ pattern_writing (tagged (λ u. at_node (value_head types.now) (in_table table.now) (known shape.now) (value_head types.now u)) label.now (option_copied tag.entry))) }
{
    match tag {
        Some(field) => {
            put_tag(alloc, label, out)?;
            match value_node(types, field.part) {
                Some(node) => put_payload(alloc, types, table, shape, node, out),
                None => put_payload(alloc, types, table, shape, &Node::Bottom, out),
            }
        }
        None => put_never(out),
    }
}

// A literal that is none of these.
fn put_other_literal(
    alloc: Global,
    node: &Node,
    parts: &[Datum],
    out: &mut Kinds,
) -> Result<(), Memory>
    ensures { OnOk result (out.new ≡ out.old ++ pattern_writing (if_new (literal_left node.now parts.now) parts.now)) }
{
    let literal = literal_left(alloc, node, parts)?;
    if is_among(&literal, parts) {
        put_never(out)
    } else {
        put_literal(alloc, &literal, out)
    }
}

// Of a type with this head.
#[cycle(shape)]
#[tactic(auto, unfolding(mo_coverage::specs::Shapes::known))]
fn put_at(
    alloc: Global,
    types: &TypeGraph,
    table: &[bool],
    shape: &Shape,
    node: &Node,
    out: &mut Kinds,
) -> Result<(), Memory>
    ensures { OnOk result (out.new ≡ out.old ++ pattern_writing (at_node (value_head types.now) (in_table table.now) (known shape.now) node.now)) }
{
    match shape {
        Shape::Unknown => put_any(node, out),
        Shape::Is(part) => put_literal(alloc, part, out),
        Shape::IsNot(parts) => put_other_literal(alloc, node, parts.as_slice(), out),
        Shape::Holds(inside) => match node {
            Node::Opt(part) => {
                put_mark(out, Mark::Question)?;
                put_shape(alloc, types, table, inside, *part, out)
            }
            _ => put_never(out),
        },
        Shape::Under(label, inside) => match node {
            Node::Variant(tags) => {
                let tag = find(tags.as_slice(), label.as_slice());
                put_tagged(alloc, types, table, label.as_slice(), inside, tag, out)
            }
            _ => put_never(out),
        },
        Shape::NotUnder(labels) => match node {
            Node::Variant(tags) => {
                let tag = tag_left(table, tags.as_slice(), labels.as_slice());
                put_other_tag(alloc, types, tag, out)
            }
            _ => put_never(out),
        },
        Shape::Parts(parts) => match node {
            Node::Tuple(ids) => {
                put_mark(out, Mark::ParenOpen)?;
                put_parts(alloc, types, table, parts.as_slice(), ids.as_slice(), out)?;
                put_mark(out, Mark::ParenClose)
            }
            _ => put_never(out),
        },
        Shape::Fields(labels, parts) => match node {
            Node::Object(fields) => {
                put_mark(out, Mark::BraceOpen)?;
                put_fields(
                    alloc,
                    types,
                    table,
                    labels.as_slice(),
                    parts.as_slice(),
                    fields.as_slice(),
                    out,
                )?;
                put_mark(out, Mark::BraceClose)
            }
            _ => put_never(out),
        },
    }
}

// A part at its type, if there is one.
#[cycle(shape)]
fn put_part(
    alloc: Global,
    types: &TypeGraph,
    table: &[bool],
    shape: &Shape,
    id: Option<&TypeId>,
    out: &mut Kinds,
) -> Result<(), Memory>
    ensures { OnOk result (out.new ≡ out.old ++ pattern_writing (at_type (value_head types.now) (in_table table.now) (known shape.now) (option_copied id.entry))) }
{
    match id {
        Some(id) => put_shape(alloc, types, table, shape, *id, out),
        None => put_never(out),
    }
}

// Adds the parts of a tuple, with a comma between each two.
#[cycle(shape)]
fn put_parts(
    alloc: Global,
    types: &TypeGraph,
    table: &[bool],
    shapes: &[Shape],
    ids: &[TypeId],
    out: &mut Kinds,
) -> Result<(), Memory>
    ensures { OnOk result (out.new ≡ out.old ++ commas (part_writings (part_patterns (value_head types.now) (in_table table.now) (knowns (all_known shapes.now)) ids.now))) }
{
    for (place, shape) in shapes.iter().enumerate() {
        put_lead(place, Mark::Comma, out)?;
        put_part(alloc, types, table, shape, type_at(ids, place), out)?;
    }
    Ok(())
}

// What is known of a field, at its type if there is one.
#[cycle(shape)]
fn put_field_part(
    alloc: Global,
    types: &TypeGraph,
    table: &[bool],
    shape: &Shape,
    field: Option<&Field>,
    out: &mut Kinds,
) -> Result<(), Memory>
    ensures { OnOk result (out.new ≡ out.old ++ pattern_writing (field_pattern (λ u. shape_pattern (value_head types.now) (in_table table.now) (known shape.now) u) (option_copied field.entry))) }
{
    match field {
        Some(field) => put_shape(alloc, types, table, shape, field.part, out),
        None => put_never(out),
    }
}

// A field at a place, if there is one.
#[cycle(shape)]
fn put_field(
    alloc: Global,
    types: &TypeGraph,
    table: &[bool],
    place: usize,
    label: Option<&Bytes>,
    shape: &Shape,
    fields: &[Field],
    out: &mut Kinds,
) -> Result<(), Memory>
    ensures { OnOk result (out.new ≡ out.old ++ field_at (value_head types.now) (in_table table.now) (known shape.now) fields.now place (option_copied label.entry)) }
{
    match label {
        Some(label) => {
            put_lead(place, Mark::Semicolon, out)?;
            put_name(alloc, label.as_slice(), out)?;
            put_mark(out, Mark::EqualSign)?;
            let field = find(fields, label.as_slice());
            put_field_part(alloc, types, table, shape, field, out)
        }
        None => Ok(()),
    }
}

// Adds the fields of an object, with a semicolon between each two.
#[cycle(shape)]
fn put_fields(
    alloc: Global,
    types: &TypeGraph,
    table: &[bool],
    labels: &[Bytes],
    shapes: &[Shape],
    fields: &[Field],
    out: &mut Kinds,
) -> Result<(), Memory>
    ensures { OnOk result (out.new ≡ out.old ++ semicolons (field_writings labels.now (field_patterns (value_head types.now) (in_table table.now) labels.now (knowns (all_known shapes.now)) fields.now)) false) }
{
    for (place, shape) in shapes.iter().enumerate() {
        let label = label_at(labels, place);
        put_field(alloc, types, table, place, label, shape, fields, out)?;
    }
    Ok(())
}

fn put_case(
    alloc: Global,
    types: &TypeGraph,
    table: &[bool],
    shape: &Shape,
    id: TypeId,
    out: &mut Kinds,
) -> Result<(), Memory>
    ensures { OnOk result (out.new ≡ out.old ++ case_tokens (shape_pattern (value_head types.now) (in_table table.now) (known shape.now) id)) }
{
    put_word(out, Word::Case)?;
    put_mark(out, Mark::ParenOpen)?;
    put_shape(alloc, types, table, shape, id, out)?;
    put_mark(out, Mark::ParenClose)
}

/// A text of `case` and the pattern that stands for a shape of values of a type: Motoko language manual, section "Patterns". The table
/// has the types that have values, as `types_with_values` of `pattern_coverage` finds them. Where the labels are identifiers, the text
/// is read as these tokens.
pub fn missed_pattern(
    alloc: Global,
    types: &TypeGraph,
    table: &[bool],
    shape: &Shape,
    id: TypeId,
) -> Result<Bytes, Memory>
    ensures { IfOk result (λ text. IsCase text (shape_pattern (value_head types.now) (in_table table.now) (known shape.now) id)) }
{
    let mut tokens = Kinds::new(alloc);
    put_case(alloc, types, table, shape, id, &mut tokens)?;
    spell(alloc, tokens.as_slice())
}
