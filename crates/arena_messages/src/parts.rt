//! The parts of values in messages.
ghost use Rattle.std.specs.Prelude.{◌≡◌, ℕ, true, reverse, IfOk, OnOk};
ghost use Rattle.mo_types.specs.Graph.{head_at};
ghost use Rattle.mo_types.specs.Heads.{map_option};
ghost use Rattle.mo_types.specs.Values.{flat};
ghost use Rattle.mo_values.specs.Messages.{plain};
ghost use Rattle.mo_machine.specs.Values.{shape_of};
ghost use Rattle.typed_tree.specs.Language.{Functions};
ghost use Rattle.value_arena.specs.Growth.{IsWithin};
ghost use Rattle.value_arena.specs.Meaning.{value_of, values};
ghost use Rattle.arena_messages.specs.Asking.{IsPut};
ghost use Rattle.arena_messages.specs.Goes.{goes};
ghost use Rattle.arena_messages.specs.Waiting.{item};

use crate::going::goes;
use crate::outermost::{inside, part_of};
use crate::waiting::{AtType, put_first};
use mo_num::Memory;
use mo_types::{Datum, TypeGraph, TypeId};
use std::alloc::Global;
use value_arena::{Arena, ValueId};

/// Puts the outermost part of a value that goes into the message. The values inside it then wait for their turn.
fn put(
    alloc: Global,
    arena: &Arena,
    types: &TypeGraph,
    next: AtType,
    waiting: &mut Vec<AtType>,
    parts: &mut Vec<Datum>,
) -> Result<(), Memory>
    requires value { IsWithin arena.now next.value }
    requires goes { (groups : ℕ → Functions) → goes (head_at types.now) (item (values groups arena.now) next) ≡ true }
    ensures { OnOk result (IsPut types.now arena.now next (reverse waiting.old.items) (reverse waiting.new.items) parts.old.items parts.new.items) }
{
    let node = types.node(next.of_type);
    match arena.made(next.value) {
        Some((head, values)) => {
            let part = part_of(alloc, node, head, values.len())?;
            parts.push(part)?;
            let first = inside(alloc, node, head, values)?;
            put_first(first, waiting)?;
            Ok(())
        }
        None => {
            parts.push(Datum::Record(0))?;
            Ok(())
        }
    }
}

/// The parts of a value at a type, each before the parts inside it, or none where it does not go into a message at the
/// type. Takes no native stack.
pub fn plain(
    alloc: Global,
    arena: &Arena,
    types: &TypeGraph,
    of_type: TypeId,
    value: ValueId,
) -> Result<Option<Vec<Datum>>, Memory>
    requires { IsWithin arena.now value }
    ensures { IfOk result (λ o. (groups : ℕ → Functions) → map_option (λ p. p.items) o ≡ map_option flat (plain (head_at types.now) of_type (shape_of (value_of groups arena.now value)))) }
{
    let going = goes(alloc, arena, types, of_type, value)?;
    if !going {
        return Ok(None);
    }
    let mut parts = Vec::new(alloc);
    let mut waiting = Vec::new(alloc);
    waiting.push(AtType { of_type, value })?;
    while let Some(next) = waiting.pop() {
        put(alloc, arena, types, next, &mut waiting, &mut parts)?;
    }
    Ok(Some(parts))
}
