//! The outermost part of a value.
ghost use Rattle.std.specs.Prelude.{◌≡◌, ℕ, List, [], slice_get};
ghost use Rattle.mo_types.specs.declared.node.Node.TheVariants as node;
ghost use Rattle.mo_types.specs.declared.node.TypeId.{TypeId};
ghost use Rattle.mo_types.specs.Graph.{head_at, node_of_slot, node_or_bottom};
ghost use Rattle.candid_types.specs.Shapes.{ref_of};
ghost use Rattle.candid_encode.specs.Puts.{IsRecord, Puts, PutsAt, PutsPart};

use crate::leaf::{
    put_actor, put_blob, put_char, put_flag, put_function, put_kind, put_plain_principal, put_text,
};
use crate::refusal::Refusal;
use candid_types::plain;
use candid_write::put_count;
use mo_num::Bytes;
use mo_types::{Datum, Field, Node, Plain, TypeGraph};

/// Null has no bytes.
fn put_null(part: &Datum) -> Result<(), Refusal>
    ensures { (old : List ℕ) → PutsPart node.Null part.now result old old }
{
    match part {
        Datum::Null => Ok(()),
        _ => Err(Refusal::OtherValues),
    }
}

/// A value of so many parts has no bytes of its own.
fn put_record(count: usize, part: &Datum) -> Result<(), Refusal>
    ensures { (old : List ℕ) → Puts (IsRecord count part.now) (λ b. b ≡ []) result old old }
{
    match part {
        Datum::Record(parts) => if *parts as usize == count {
            Ok(())
        } else {
            Err(Refusal::OtherValues)
        },
        _ => Err(Refusal::OtherValues),
    }
}

/// Writes whether an option has a value.
fn put_option(part: &Datum, out: &mut Bytes) -> Result<(), Refusal>
    ensures { (inner : TypeId) → PutsPart (node.Opt inner) part.now result out.old out.new }
{
    match part {
        Datum::Null => out.push(0)?,
        Datum::Present => out.push(1)?,
        _ => return Err(Refusal::OtherValues),
    }
    Ok(())
}

/// Writes how many items an array has.
fn put_array(part: &Datum, out: &mut Bytes) -> Result<(), Refusal>
    ensures { (item : TypeId) → PutsPart (node.Array item) part.now result out.old out.new }
{
    match part {
        Datum::Many(count) => {
            put_count(*count as usize, out)?;
            Ok(())
        }
        _ => Err(Refusal::OtherValues),
    }
}

/// Writes the place of a tag among those of its type.
fn put_tag(tags: &[Field], part: &Datum, out: &mut Bytes) -> Result<(), Refusal>
    ensures { PutsPart (node.Variant tags.now) part.now result out.old out.new }
{
    match part {
        Datum::Tag(tag) => {
            if *tag as usize >= tags.len() {
                return Err(Refusal::OtherValues);
            }
            put_count(*tag as usize, out)?;
            Ok(())
        }
        _ => Err(Refusal::OtherValues),
    }
}

/// Writes the outermost part of a value of a type with this head.
fn put_by(node: &Node, part: &Datum, out: &mut Bytes) -> Result<(), Refusal>
    ensures { PutsPart node.now part.now result out.old out.new }
{
    match node {
        Node::Number(kind) => put_kind(*kind, part, out),
        Node::Bool => put_flag(part, out),
        Node::Char => put_char(part, out),
        Node::Text => put_text(part, out),
        Node::Blob => put_blob(part, out),
        Node::Principal => put_plain_principal(part, out),
        Node::Null => put_null(part),
        Node::Any => put_record(0, part),
        Node::Opt(_) => put_option(part, out),
        Node::Array(_) => put_array(part, out),
        Node::Tuple(parts) => put_record(parts.len(), part),
        Node::Object(fields) => put_record(fields.len(), part),
        Node::Actor(_) => put_actor(part, out),
        Node::Variant(tags) => put_tag(tags.as_slice(), part, out),
        Node::Func(sort, _, _) => put_function(*sort, part, out),
        Node::Error | Node::Bottom | Node::MutArray(_) | Node::Async(_) | Node::Variable(_, _) => {
            Err(Refusal::OtherValues)
        }
    }
}

fn put_defined(
    types: &TypeGraph,
    index: usize,
    part: &Datum,
    out: &mut Bytes,
) -> Result<(), Refusal>
    ensures { PutsPart (node_or_bottom (node_of_slot (slice_get types.now index))) part.now result out.old out.new }
{
    match types.get_index(index) {
        Some(node) => put_by(node, part, out),
        None => Err(Refusal::OtherValues),
    }
}

/// Writes the outermost part of a value of the type of a number. Of the types without parts, null alone stands for a
/// type of Motoko: `()` under a tag.
pub fn put_part(types: &TypeGraph, of: usize, part: &Datum, out: &mut Bytes) -> Result<(), Refusal>
    ensures { PutsAt (head_at types.now) (ref_of of) part.now result out.old out.new }
{
    if of >= 18 {
        put_defined(types, of - 18, part, out)
    } else if of == plain(Plain::Null) {
        put_record(0, part)
    } else {
        Err(Refusal::OtherValues)
    }
}
