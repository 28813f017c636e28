//! The Candid parts of a value: Motoko language manual, section "Candid serialization".
ghost use Rattle.std.specs.Prelude.{◌≡◌, ◌++◌, ◌∷◌, [], List, pos, reverse, IfOk, OnOk};
ghost use Rattle.mo_types.specs.declared.datum.Datum.{Datum as Part};
ghost use Rattle.mo_types.specs.declared.datum.Datum.TheVariants as part_of;
ghost use Rattle.mo_types.specs.Form.{form_part};
ghost use Rattle.mo_types.specs.Graph.{head_at};
ghost use Rattle.kept_forms.specs.Parts.{form_at, form_one, formed, numbers, waiting as awaited};
ghost use Rattle.kept_parts.specs.Steps.{behind, IsFormStep};

use crate::waiting::{is_unit, put_asked};
use arena_copies::copied_part;
use mo_num::Memory;
use mo_types::{Datum, Node, TypeGraph, TypeId};
use std::alloc::Global;

// A byte.
fn number_of(byte: u8) -> Datum
    ensures { result ≡ part_of.Number (pos byte) }
{
    Datum::Number(byte as i128)
}

// Bytes one by one.
fn put_numbers(bytes: &[u8], found: &mut Vec<Datum>) -> Result<(), Memory>
    ensures { OnOk result (found.new.items ≡ found.old.items ++ numbers bytes.now) }
{
    for byte in bytes {
        found.push(number_of(*byte))?;
    }
    Ok(())
}

// A part, which is no Blob. A Blob of 2^32 bytes or more is answered as want of memory: its count is greater than that of any array.
fn formed_part(alloc: Global, node: &Node, part: &Datum) -> Result<Datum, Memory>
    ensures { IfOk result (λ made. made ≡ form_part node.now part.now) }
{
    match (node, part) {
        (Node::Char, Datum::Char(code)) => Ok(Datum::Number(*code as i128)),
        (Node::Blob, Datum::Blob(bytes)) => match u32::try_from(bytes.len()) {
            Ok(count) => Ok(Datum::Many(count)),
            Err(_) => Err(Memory),
        },
        (Node::Any, _) => Ok(Datum::Null),
        _ => copied_part(alloc, part),
    }
}

// The bytes behind the count of a Blob. Behind other parts is nothing.
fn put_behind(node: &Node, part: &Datum, found: &mut Vec<Datum>) -> Result<(), Memory>
    ensures { OnOk result (found.new.items ≡ found.old.items ++ behind node.now part.now) }
{
    match (node, part) {
        (Node::Blob, Datum::Blob(bytes)) => put_numbers(bytes.as_slice(), found),
        _ => Ok(()),
    }
}

// The parts that a part comes to.
fn put_form(alloc: Global, node: &Node, part: &Datum, found: &mut Vec<Datum>) -> Result<(), Memory>
    ensures { OnOk result (found.new.items ≡ found.old.items ++ form_one node.now part.now) }
{
    let made = formed_part(alloc, node, part)?;
    found.push(made)?;
    put_behind(node, part, found)
}

// And those of () under a tag.
fn put_form_at(
    alloc: Global,
    node: &Node,
    under: bool,
    part: &Datum,
    found: &mut Vec<Datum>,
) -> Result<(), Memory>
    ensures { OnOk result (found.new.items ≡ found.old.items ++ form_at node.now under part.now) }
{
    if under && is_unit(node) {
        found.push(Datum::Null)?;
        return Ok(());
    }
    put_form(alloc, node, part, found)
}

// A part as it is.
fn put_copy(alloc: Global, part: &Datum, found: &mut Vec<Datum>) -> Result<(), Memory>
    ensures { OnOk result (found.new.items ≡ found.old.items ++ part.now ∷ []) }
{
    let copy = copied_part(alloc, part)?;
    found.push(copy)?;
    Ok(())
}

// A part of a type with this head. What is inside it comes next.
fn form_node(
    alloc: Global,
    node: &Node,
    under: bool,
    part: &Datum,
    waiting: &mut Vec<(TypeId, bool)>,
    found: &mut Vec<Datum>,
) -> Result<(), Memory>
    ensures { OnOk result (IsFormStep node.now under part.now waiting.old.items waiting.new.items found.old.items found.new.items) }
{
    put_form_at(alloc, node, under, part, found)?;
    put_asked(alloc, node, part, waiting)
}

// A part of this type.
fn form_typed(
    alloc: Global,
    types: &TypeGraph,
    next: (TypeId, bool),
    part: &Datum,
    waiting: &mut Vec<(TypeId, bool)>,
    found: &mut Vec<Datum>,
) -> Result<(), Memory>
    ensures { OnOk result (IsFormStep (head_at types.now next.0) next.1 part.now waiting.old.items waiting.new.items found.old.items found.new.items) }
{
    match types.get(next.0) {
        Some(node) => form_node(alloc, node, next.1, part, waiting, found),
        None => put_copy(alloc, part, found),
    }
}

// The next part, which is of the type at the top.
fn form_next(
    alloc: Global,
    types: &TypeGraph,
    part: &Datum,
    waiting: &mut Vec<(TypeId, bool)>,
    found: &mut Vec<Datum>,
) -> Result<(), Memory>
    ensures { OnOk result ((ps : List Part) → found.new.items ++ formed (head_at types.now) (reverse waiting.new.items) ps ≡ found.old.items ++ formed (head_at types.now) (reverse waiting.old.items) (part.now ∷ ps)) }
{
    match waiting.pop() {
        Some(next) => form_typed(alloc, types, next, part, waiting, found),
        None => Ok(()),
    }
}

/// The parts of the Candid value of a value of this type, whose parts these are. Takes no native stack.
pub(crate) fn form_parts(
    alloc: Global,
    types: &TypeGraph,
    of_type: TypeId,
    parts: &[Datum],
) -> Result<Vec<Datum>, Memory>
    ensures { IfOk result (λ made. made.items ≡ formed (head_at types.now) (awaited (of_type ∷ [])) parts.now) }
{
    let mut found = Vec::new(alloc);
    let mut waiting = Vec::new(alloc);
    waiting.push((of_type, false))?;
    for part in parts {
        form_next(alloc, types, part, &mut waiting, &mut found)?;
    }
    Ok(found)
}
