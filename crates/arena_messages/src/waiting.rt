//! The values inside a value, each at its type, that wait for their turn.
ghost use Rattle.std.specs.Prelude.{◌≡◌, ◌∷◌, ◌++◌, [], OnOk, Some, length, map, reverse, slice_get};
ghost use Rattle.mo_types.specs.Values.{copies};
ghost use Rattle.mo_values.specs.Messages.{labels, types, types_inside, under};
ghost use Rattle.value_arena.specs.Heads.{head_of};
ghost use Rattle.arena_messages.specs.Waiting.{asked_ids, both_ids, field_ids};

use crate::fields::{type_under, value_under};
use mo_num::{Bytes, Memory};
use mo_types::{Field, Node, TypeId};
use value_arena::{ValueHead, ValueId};

/// A value at a type.
#[derive(Clone, Copy, Debug, PartialEq, Eq)]
pub struct AtType {
    pub of_type: TypeId,
    pub value: ValueId,
}

/// A value at a type, where there are both.
fn push_both(
    of_type: Option<TypeId>,
    value: Option<ValueId>,
    waiting: &mut Vec<AtType>,
) -> Result<(), Memory>
    ensures { OnOk result (waiting.new.items ≡ waiting.old.items ++ both_ids of_type value) }
{
    match of_type {
        None => Ok(()),
        Some(of_type) => match value {
            None => Ok(()),
            Some(value) => {
                waiting.push(AtType { of_type, value })?;
                Ok(())
            }
        },
    }
}

/// The value at a place, counted from 0.
fn value_at(values: &[ValueId], place: usize) -> Option<ValueId>
    ensures { result ≡ slice_get values.now place }
{
    if place < values.len() {
        Some(values[place])
    } else {
        None
    }
}

/// All values, at one type.
fn push_each(of_type: TypeId, values: &[ValueId], waiting: &mut Vec<AtType>) -> Result<(), Memory>
    ensures { OnOk result (waiting.new.items ≡ waiting.old.items ++ asked_ids (copies (length values.now) (Some of_type)) values.now) }
{
    for value in values {
        push_both(Some(of_type), Some(*value), waiting)?;
    }
    Ok(())
}

/// The first value, where there is one, at a type, where there is one.
fn push_first(
    of_type: Option<TypeId>,
    values: &[ValueId],
    waiting: &mut Vec<AtType>,
) -> Result<(), Memory>
    ensures { OnOk result (waiting.new.items ≡ waiting.old.items ++ asked_ids (of_type ∷ []) values.now) }
{
    push_both(of_type, value_at(values, 0), waiting)
}

/// Each value at the type of its place.
fn push_pairs(
    of_types: &[TypeId],
    values: &[ValueId],
    waiting: &mut Vec<AtType>,
) -> Result<(), Memory>
    ensures { OnOk result (waiting.new.items ≡ waiting.old.items ++ asked_ids (map (λ t. Some t) of_types.now) values.now) }
{
    for (place, of_type) in of_types.iter().enumerate() {
        push_both(Some(*of_type), value_at(values, place), waiting)?;
    }
    Ok(())
}

/// Each value at the type under its label.
fn push_labelled(
    fields: &[Field],
    names: &[Bytes],
    values: &[ValueId],
    waiting: &mut Vec<AtType>,
) -> Result<(), Memory>
    ensures { OnOk result (waiting.new.items ≡ waiting.old.items ++ asked_ids (map (λ l. under l (labels fields.now) (types fields.now)) names.now) values.now) }
{
    for (place, name) in names.iter().enumerate() {
        let of_type = type_under(fields, name.as_slice());
        push_both(of_type, value_at(values, place), waiting)?;
    }
    Ok(())
}

/// The values inside a value with this head, at the types that a type with this head asks for.
pub(crate) fn push_inside(
    node: &Node,
    head: &ValueHead,
    values: &[ValueId],
    waiting: &mut Vec<AtType>,
) -> Result<(), Memory>
    ensures { OnOk result (waiting.new.items ≡ waiting.old.items ++ asked_ids (types_inside node.now (head_of head.now) (length values.now)) values.now) }
{
    match (node, head) {
        (Node::Opt(of_type), ValueHead::Present) => push_first(Some(*of_type), values, waiting),
        (Node::Tuple(of_types), ValueHead::Tuple) => {
            push_pairs(of_types.as_slice(), values, waiting)
        }
        (Node::Array(of_type), ValueHead::Array) => push_each(*of_type, values, waiting),
        (Node::Object(fields), ValueHead::Object(names)) => {
            push_labelled(fields.as_slice(), names.as_slice(), values, waiting)
        }
        (Node::Variant(tags), ValueHead::Tag(label)) => {
            let of_type = type_under(tags.as_slice(), label.as_slice());
            push_first(of_type, values, waiting)
        }
        _ => Ok(()),
    }
}

/// The values under the labels of these fields, of an object at a type with all fields.
pub(crate) fn push_fields(
    fields: &[Field],
    names: &[Bytes],
    values: &[ValueId],
    order: &[&Field],
    waiting: &mut Vec<AtType>,
) -> Result<(), Memory>
    ensures { OnOk result (waiting.new.items ≡ waiting.old.items ++ field_ids fields.now names.now values.now (map (λ f. f.now) order.now)) }
{
    for field in order {
        let label = field.label.as_slice();
        let of_type = type_under(fields, label);
        push_both(of_type, value_under(names, values, label), waiting)?;
    }
    Ok(())
}

/// Puts values before those that wait, the first one at the top.
pub(crate) fn put_first(inside: Vec<AtType>, waiting: &mut Vec<AtType>) -> Result<(), Memory>
    ensures { OnOk result (reverse waiting.new.items ≡ inside.items ++ reverse waiting.old.items) }
{
    let mut inside = inside;
    while let Some(last) = inside.pop() {
        waiting.push(last)?;
    }
    Ok(())
}
