//! Values are made of their parts, the last part first.
ghost use Rattle.std.specs.Prelude.{◌≡◌, ℕ, ◌+◌, List, drop, reverse, take, IfOk, OnOk};
ghost use Rattle.value_arena.specs.declared.node.ValueId.{ValueId as Number};
ghost use Rattle.mo_types.specs.Graph.{head_at, node_or_bottom};
ghost use Rattle.mo_types.specs.Heads.{map_option};
ghost use Rattle.value_arena.specs.Growth.{AreWithin};
ghost use Rattle.arena_reading.specs.Opening.{AreOpened, IsPut, built};

use crate::heads::{arity, head_of};
use mo_num::{Memory, Sequence};
use mo_types::{Datum, Node, TypeGraph, TypeId};
use std::alloc::Global;
use value_arena::{Arena, ValueId};

// The value at the top, where there is one, is put behind those that were taken.
fn take_one(values: &mut Vec<ValueId>, inside: &mut Sequence<ValueId>) -> Result<(), Memory>
    ensures { OnOk result ((n : ℕ) (all : List Number) → inside.old ≡ take n all → reverse values.old.items ≡ drop n all → (inside.new ≡ take (n + 1) all) × (reverse values.new.items ≡ drop (n + 1) all)) }
{
    let Some(value) = values.pop() else {
        return Ok(());
    };
    inside.push(value)?;
    Ok(())
}

// The values inside a part, which are at the top, are taken off.
fn take_inside(
    alloc: Global,
    count: u32,
    values: &mut Vec<ValueId>,
) -> Result<Sequence<ValueId>, Memory>
    ensures { IfOk result (λ ids. (ids ≡ take count (reverse values.old.items)) × (reverse values.new.items ≡ drop count (reverse values.old.items))) }
{
    let mut inside = Sequence::new(alloc);
    for _ in 0..count {
        take_one(values, &mut inside)?;
    }
    Ok(inside)
}

// The value of a part of a type with this head is put at the top, in the place of those inside it.
fn put_part(
    alloc: Global,
    arena: &mut Arena,
    node: Option<&Node>,
    part: &Datum,
    values: &mut Vec<ValueId>,
) -> Result<(), Memory>
    requires { AreWithin arena.old (reverse values.old.items) }
    ensures { IfOk result (λ u. IsPut arena.old (node_or_bottom (map_option (λ n. n.now) node.entry)) part.now (reverse values.old.items) arena.new (reverse values.new.items)) }
{
    let count = arity(part);
    let inside = take_inside(alloc, count, values)?;
    let head = head_of(alloc, node, part)?;
    let value = arena.make(head, inside)?;
    values.push(value)?;
    Ok(())
}

/// The values whose parts these are, each part of its type. Takes no native stack. After an error the arena may have further
/// nodes.
pub(crate) fn open_parts(
    alloc: Global,
    arena: &mut Arena,
    types: &TypeGraph,
    of: &[TypeId],
    parts: &[Datum],
) -> Result<Vec<ValueId>, Memory>
    ensures { IfOk result (λ ids. AreOpened arena.old (built (head_at types.now) of.now parts.now) arena.new ids.items) }
{
    let mut values = Vec::new(alloc);
    let mut left = parts.len();
    while left > 0 {
        left -= 1;
        if left < of.len() {
            put_part(alloc, arena, types.get(of[left]), &parts[left], &mut values)?;
        }
    }
    values.as_mut_slice().reverse();
    Ok(values)
}
