//! What the heads of arrays and of variants have.
ghost use Rattle.std.specs.Prelude.{◌≡◌, IfOk, IfSome, Some, option_map, slice_get};
ghost use Rattle.std.specs.Option.{option_copied};
ghost use Rattle.mo_types.specs.Heads as node_heads;
ghost use Rattle.mo_types.specs.Sub.{find};
ghost use Rattle.type_definitions.specs.Meanings.{term};
ghost use Rattle.met_types.specs.States.{IsReached, Kept};
ghost use Rattle.judging.specs.Heads.{HeadHas, part_in};
ghost use Rattle.data_parts.specs.Tags.{IsPart, part_among, tag_of};

use met_types::Types;
use mo_num::Memory;
use mo_types::{Field, Node, TypeId};
use type_terms::TermId;

fn array_at(node: &Node) -> Option<TypeId>
    ensures { result ≡ node_heads.array_of node.now }
{
    match node {
        Node::Array(part) => Some(*part),
        _ => None,
    }
}

fn mutable_array_at(node: &Node) -> Option<TypeId>
    ensures { result ≡ node_heads.mut_array_of node.now }
{
    match node {
        Node::MutArray(part) => Some(*part),
        _ => None,
    }
}

/// The term of a type of the graph, where there is one.
fn part_in(types: &Types, part: Option<TypeId>) -> Option<TermId>
    ensures { result ≡ part_in types.now part }
{
    match part {
        Some(part) => types.term_at(part),
        None => None,
    }
}

/// The type A of `[A]`.
pub fn array_part(types: &Types, id: TermId) -> Option<TermId>
    requires kept { Kept types.now }
    requires reached { IsReached types.now id }
    ensures is { HeadHas node_heads.array_of types.now id (λ later. option_map (term later) result) }
    ensures reached { IfSome result (IsReached types.now) }
{
    match types.node(id) {
        Some(node) => part_in(types, array_at(node)),
        None => None,
    }
}

/// The type A of `[var A]`.
pub fn mutable_array_part(types: &Types, id: TermId) -> Option<TermId>
    requires kept { Kept types.now }
    requires reached { IsReached types.now id }
    ensures is { HeadHas node_heads.mut_array_of types.now id (λ later. option_map (term later) result) }
    ensures reached { IfSome result (IsReached types.now) }
{
    match types.node(id) {
        Some(node) => part_in(types, mutable_array_at(node)),
        None => None,
    }
}

/// The first field of this label.
fn field_of<'a>(fields: &'a [Field], label: &[u8]) -> Option<&'a Field>
    ensures { option_copied result ≡ find label.now fields.now }
{
    for field in fields {
        if field.label.as_slice() == label {
            return Some(field);
        }
    }
    None
}

/// The term of a type of the graph.
fn term_of(types: &Types, part: TypeId) -> Result<TermId, Memory>
    ensures { IfOk result (λ made. slice_get types.now.reached part.index ≡ Some made) }
{
    match types.term_at(part) {
        Some(made) => Ok(made),
        None => Err(Memory),
    }
}

/// The type of the first tag of this name.
fn part_of(types: &Types, tags: &[Field], name: &[u8]) -> Result<Option<TermId>, Memory>
    ensures { IfOk result (IsPart types.now (part_among name.now tags.now)) }
{
    match field_of(tags, name) {
        Some(tag) => Ok(Some(term_of(types, tag.part)?)),
        None => Ok(None),
    }
}

/// The type of a tag, where this is a type of variants, of which the tag may be none.
pub fn tag_part(types: &Types, id: TermId, name: &[u8]) -> Result<Option<Option<TermId>>, Memory>
    requires kept { Kept types.now }
    requires reached { IsReached types.now id }
    ensures is { IfOk result (λ found. HeadHas (tag_of name.now) types.now id (λ later. option_map (option_map (term later)) found)) }
    ensures reached { IfOk result (λ found. IfSome found (λ part. IfSome part (IsReached types.now))) }
{
    match types.node(id) {
        Some(node) => match node.variant_of() {
            Some(tags) => Ok(Some(part_of(types, tags, name)?)),
            None => Ok(None),
        },
        None => Ok(None),
    }
}
