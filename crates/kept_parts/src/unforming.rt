//! The parts of a value from those of its Candid value.
ghost use Rattle.std.specs.Prelude.{◌≡◌, ◌<◌, ◌∷◌, [], List, None, Some, pos, IfOk, OnOk};
ghost use Rattle.mo_types.specs.declared.datum.Datum.{Datum as Part};
ghost use Rattle.mo_types.specs.declared.datum.Datum.TheVariants as part_of;
ghost use Rattle.mo_types.specs.declared.node.Node.{Node as Head};
ghost use Rattle.mo_types.specs.declared.node.Node.TheVariants as head_of;
ghost use Rattle.mo_types.specs.declared.node.TypeId.{TypeId as Number};
ghost use Rattle.mo_types.specs.Graph.{head_at};
ghost use Rattle.kept_forms.specs.Parts.{bytes_behind as count_of, unform_at, unform_one, unformed, waiting as awaited, Next};
ghost use Rattle.kept_parts.specs.Steps.{rest_of, IsGathered, IsOpened, IsPassed, IsPassedAt};

use crate::waiting::{is_unit, put_asked};
use arena_copies::copied_part;
use mo_num::{Bytes, Memory};
use mo_types::{Datum, Node, TypeGraph, TypeId};
use std::alloc::Global;

/// What waits, how many bytes of a Blob are still to come behind those that were gathered, and the parts that were found.
#[derive(Drop)]
pub(crate) struct Unforming {
    pub waiting: Vec<(TypeId, bool)>,
    pub left: u32,
    pub bytes: Vec<u8>,
    pub found: Vec<Datum>,
}

// A byte. Other parts, and greater numbers, never come: the Candid types of both programs are the same.
fn byte_of(part: &Datum) -> Result<u8, Memory>
    ensures { IfOk result (λ byte. part.now ≡ part_of.Number (pos byte)) }
{
    match part {
        Datum::Number(number) => match u8::try_from(*number) {
            Ok(byte) => Ok(byte),
            Err(_) => Err(Memory),
        },
        _ => Err(Memory),
    }
}

// The character of a number. Negative ones, and those of more than 32 bits, never come.
fn character(number: i128) -> Result<u32, Memory>
    ensures { IfOk result (λ code. number ≡ pos code) }
{
    match u32::try_from(number) {
        Ok(code) => Ok(code),
        Err(_) => Err(Memory),
    }
}

// A part of a value of a type with this head, which is no Blob.
fn unformed_part(alloc: Global, node: &Node, part: &Datum) -> Result<Datum, Memory>
    ensures { IfOk result (λ made. made ≡ unform_one node.now part.now) }
{
    match (node, part) {
        (Node::Char, Datum::Number(number)) => Ok(Datum::Char(character(*number)?)),
        (Node::Any, _) => Ok(Datum::Record(0)),
        _ => copied_part(alloc, part),
    }
}

// And () under a tag.
fn unformed_at(alloc: Global, node: &Node, under: bool, part: &Datum) -> Result<Datum, Memory>
    ensures { IfOk result (λ made. made ≡ unform_at node.now under part.now) }
{
    if under && is_unit(node) {
        return Ok(Datum::Record(0));
    }
    unformed_part(alloc, node, part)
}

// How many bytes stand behind it.
fn bytes_behind(node: &Node, part: &Datum) -> Option<u32>
    ensures { result ≡ count_of node.now part.now }
{
    match (node, part) {
        (Node::Blob, Datum::Many(count)) => Some(*count),
        _ => None,
    }
}

// A value. What is inside it comes next.
fn put_value(
    alloc: Global,
    node: &Node,
    under: bool,
    part: &Datum,
    state: &mut Unforming,
) -> Result<(), Memory>
    requires none { state.old.left ≡ 0 }
    requires value { count_of node.now part.now ≡ None }
    ensures { OnOk result (IsOpened node.now under part.now state.old state.new) }
{
    let made = unformed_at(alloc, node, under, part)?;
    put_asked(alloc, node, &made, &mut state.waiting)?;
    state.found.push(made)?;
    Ok(())
}

// A Blob of so many bytes. They come next.
fn put_blob(
    alloc: Global,
    node: &Node,
    under: bool,
    part: &Datum,
    count: u32,
    state: &mut Unforming,
) -> Result<(), Memory>
    requires none { state.old.left ≡ 0 }
    requires blob { count_of node.now part.now ≡ Some count }
    ensures { OnOk result (IsOpened node.now under part.now state.old state.new) }
{
    if count == 0 {
        state.found.push(Datum::Blob(Bytes::new(alloc)))?;
        return Ok(());
    }
    state.left = count;
    state.bytes.clear();
    Ok(())
}

// A part of a type with this head.
fn unform_node(
    alloc: Global,
    node: &Node,
    under: bool,
    part: &Datum,
    state: &mut Unforming,
) -> Result<(), Memory>
    requires { state.old.left ≡ 0 }
    ensures { OnOk result (IsOpened node.now under part.now state.old state.new) }
{
    match bytes_behind(node, part) {
        Some(count) => put_blob(alloc, node, under, part, count, state),
        None => put_value(alloc, node, under, part, state),
    }
}

// A part as it is, of a type that has no values.
fn put_copy(alloc: Global, under: bool, part: &Datum, state: &mut Unforming) -> Result<(), Memory>
    requires { state.old.left ≡ 0 }
    ensures { OnOk result (IsOpened head_of.Bottom under part.now state.old state.new) }
{
    let copy = copied_part(alloc, part)?;
    state.found.push(copy)?;
    Ok(())
}

// A part of this type.
fn unform_typed(
    alloc: Global,
    types: &TypeGraph,
    next: (TypeId, bool),
    part: &Datum,
    state: &mut Unforming,
) -> Result<(), Memory>
    requires { state.old.left ≡ 0 }
    ensures { OnOk result (IsOpened (head_at types.now next.0) next.1 part.now state.old state.new) }
{
    match types.get(next.0) {
        Some(node) => unform_node(alloc, node, next.1, part, state),
        None => put_copy(alloc, next.1, part, state),
    }
}

// The next part, which is of the type at the top.
fn unform_top(
    alloc: Global,
    types: &TypeGraph,
    part: &Datum,
    state: &mut Unforming,
) -> Result<(), Memory>
    requires { state.old.left ≡ 0 }
    ensures { OnOk result (IsPassedAt (head_at types.now) part.now state.old state.new) }
{
    match state.waiting.pop() {
        Some(next) => unform_typed(alloc, types, next, part, state),
        None => Ok(()),
    }
}

// All bytes of a Blob are gathered.
fn put_gathered(alloc: Global, state: &mut Unforming) -> Result<(), Memory>
    requires { state.old.left ≡ 0 }
    ensures { OnOk result (IsGathered state.old state.new) }
{
    let blob = Bytes::from_slice(alloc, state.bytes.as_slice())?;
    state.found.push(Datum::Blob(blob))?;
    Ok(())
}

// A byte of a Blob.
fn gather(alloc: Global, part: &Datum, state: &mut Unforming) -> Result<(), Memory>
    requires { 0 < state.old.left }
    ensures { OnOk result (IsPassed part.now state.old state.new) }
{
    let byte = byte_of(part)?;
    state.bytes.push(byte)?;
    state.left -= 1;
    if state.left == 0 {
        return put_gathered(alloc, state);
    }
    Ok(())
}

// The next part.
fn unform_next(
    alloc: Global,
    types: &TypeGraph,
    part: &Datum,
    state: &mut Unforming,
) -> Result<(), Memory>
    ensures { OnOk result (IsPassedAt (head_at types.now) part.now state.old state.new) }
{
    if state.left == 0 {
        return unform_top(alloc, types, part, state);
    }
    gather(alloc, part, state)
}

// Where a value of this type begins.
fn begin(alloc: Global, of_type: TypeId) -> Result<Unforming, Memory>
    ensures { IfOk result (λ state. (head : Number → Head Number) (ps : List Part) → rest_of head state ps ≡ unformed head Next (awaited (of_type ∷ [])) ps) }
{
    let mut waiting = Vec::new(alloc);
    waiting.push((of_type, false))?;
    Ok(Unforming {
        waiting,
        left: 0,
        bytes: Vec::new(alloc),
        found: Vec::new(alloc),
    })
}

// What was found.
fn found_in(state: Unforming) -> Vec<Datum>
    ensures { result ≡ state.found }
{
    let Unforming {
        waiting: _waiting,
        left: _left,
        bytes: _bytes,
        found,
    } = state;
    found
}

/// The parts of the value of this type whose Candid value has these parts. Takes no native stack.
pub(crate) fn unform_parts(
    alloc: Global,
    types: &TypeGraph,
    of_type: TypeId,
    parts: &[Datum],
) -> Result<Vec<Datum>, Memory>
    ensures { IfOk result (λ made. made.items ≡ unformed (head_at types.now) Next (awaited (of_type ∷ [])) parts.now) }
{
    let mut state = begin(alloc, of_type)?;
    for part in parts {
        unform_next(alloc, types, part, &mut state)?;
    }
    Ok(found_in(state))
}
