//! Fields in the order of their numbers, and methods in the order of their names.
ghost use Rattle.std.specs.Prelude.{◌≡◌, IfOk, map, reverse};
ghost use Rattle.mo_types.specs.Graph.{head_at};
ghost use Rattle.mo_types.specs.Values.{by_label};
ghost use Rattle.mo_types.specs.Wire.{by_name, entry_of, map_entry, map_method, method_of, numbered, payload, tag_of};
ghost use Rattle.candid_types.specs.Shapes.{by_id, ref_of};

use crate::numbering::{number, plain};
use mo_num::{Bytes, Memory, Sequence};
use mo_types::{Entry, Field, Method, Node, Plain, TypeGraph, TypeId, label_id};
use std::alloc::Global;

/// The parts of a tuple, under 0, 1, and so on.
pub(crate) fn tuple_entries(
    alloc: Global,
    parts: &[TypeId],
) -> Result<Sequence<Entry<usize>>, Memory>
    ensures { IfOk result (λ made. map (map_entry ref_of) made ≡ numbered 0 parts.now) }
{
    if parts.len() > u32::MAX as usize {
        return Err(Memory);
    }
    let mut made = Vec::with_capacity(alloc, parts.len())?;
    for i in 0..parts.len() {
        made.push(Entry {
            id: i as u32,
            part: number(parts[i]),
        })?;
    }
    Ok(Sequence::from_vec(made))
}

fn reversed<T>(items: Vec<T>) -> Vec<T>
    ensures { result.items ≡ reverse items.items }
{
    let mut items = items;
    items.as_mut_slice().reverse();
    items
}

/// In the rising order of the ids. Of equal ones the last comes first.
fn sort_entries(unsorted: Vec<Entry<usize>>) -> Result<Sequence<Entry<usize>>, Memory>
    ensures { IfOk result (λ made. made ≡ by_id unsorted.items) }
{
    let mut entries = reversed(unsorted);
    entries.sort_by_key(|entry| entry.id)?;
    Ok(Sequence::from_vec(entries))
}

/// The fields of an object.
pub(crate) fn object_entries(
    alloc: Global,
    fields: &[Field],
) -> Result<Sequence<Entry<usize>>, Memory>
    ensures { IfOk result (λ made. map (map_entry ref_of) made ≡ map entry_of (by_label fields.now)) }
{
    let mut unsorted = Vec::with_capacity(alloc, fields.len())?;
    for field in fields {
        unsorted.push(Entry {
            id: label_id(field.label.as_slice()),
            part: number(field.part),
        })?;
    }
    sort_entries(unsorted)
}

/// The number of a tag's value: `()` stands as null.
fn payload_number(types: &TypeGraph, part: TypeId) -> usize
    ensures { ref_of result ≡ payload (head_at types.now) part }
{
    match types.get(part) {
        Some(Node::Tuple(parts)) if parts.is_empty() => plain(Plain::Null),
        _ => number(part),
    }
}

/// The tags of a variant.
pub(crate) fn variant_entries(
    alloc: Global,
    types: &TypeGraph,
    tags: &[Field],
) -> Result<Sequence<Entry<usize>>, Memory>
    ensures { IfOk result (λ made. map (map_entry ref_of) made ≡ map (tag_of (head_at types.now)) (by_label tags.now)) }
{
    let mut unsorted = Vec::with_capacity(alloc, tags.len())?;
    for tag in tags {
        unsorted.push(Entry {
            id: label_id(tag.label.as_slice()),
            part: payload_number(types, tag.part),
        })?;
    }
    sort_entries(unsorted)
}

/// In the rising order of the names. Of equal ones the last comes first.
fn sort_methods(unsorted: Vec<Method<usize>>) -> Result<Sequence<Method<usize>>, Memory>
    ensures { IfOk result (λ made. made ≡ by_name unsorted.items) }
{
    let mut methods = reversed(unsorted);
    methods.sort_by(|low, high| low.name.as_slice().cmp(&high.name.as_slice()))?;
    Ok(Sequence::from_vec(methods))
}

/// The methods of an actor.
pub(crate) fn service_methods(
    alloc: Global,
    methods: &[Field],
) -> Result<Sequence<Method<usize>>, Memory>
    ensures { IfOk result (λ made. map (map_method ref_of) made ≡ by_name (map method_of methods.now)) }
{
    let mut unsorted = Vec::with_capacity(alloc, methods.len())?;
    for method in methods {
        unsorted.push(Method {
            name: Bytes::from_slice(alloc, method.label.as_slice())?,
            part: number(method.part),
        })?;
    }
    sort_methods(unsorted)
}
