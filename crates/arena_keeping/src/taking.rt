//! The value of one stable variable.
ghost use Rattle.std.specs.Prelude.{◌≡◌, map, IfOk, Some};
ghost use Rattle.arena_keeping.specs.Taking.{first_taken, kept_wanted, place_from, taken_wanted, value_wanted, IsTakenOver};

use crate::places::{parts_at, place_of, type_at};
use crate::taken::Taken;
use arena_reading::values_of_parts;
use kept_parts::kept_parts;
use mo_num::Memory;
use mo_types::{Datum, TypeGraph, TypeId};
use std::alloc::Global;
use typed_tree::{Program, StableVariable};
use value_arena::{Arena, ValueId};

// The first value.
fn first_taken(values: &[ValueId]) -> Taken
    ensures { result ≡ first_taken values.now }
{
    match values {
        [first, ..] => Taken::Kept(*first),
        [] => Taken::Incompatible,
    }
}

// The value with these parts.
fn value_at(
    alloc: Global,
    arena: &mut Arena,
    types: &TypeGraph,
    of_type: TypeId,
    parts: &[Datum],
) -> Result<Taken, Memory>
    ensures { IfOk result (λ t. IsTakenOver arena.old (value_wanted types.now of_type parts.now) t arena.new) }
{
    let values = values_of_parts(alloc, arena, types, &[of_type], parts)?;
    Ok(first_taken(values.as_slice()))
}

// The value with these parts at the old type, at the new one.
fn kept_at(
    alloc: Global,
    arena: &mut Arena,
    old: &TypeGraph,
    new: &TypeGraph,
    from: TypeId,
    to: TypeId,
    parts: &[Datum],
) -> Result<Taken, Memory>
    ensures { IfOk result (λ t. IsTakenOver arena.old (kept_wanted old.now new.now from to parts.now) t arena.new) }
{
    match kept_parts(alloc, old, new, from, to, parts)? {
        Some(kept) => value_at(alloc, arena, new, to, kept.as_slice()),
        None => Ok(Taken::Incompatible),
    }
}

// The value of the old variable at this place. It is there, and it was saved.
fn placed(
    alloc: Global,
    arena: &mut Arena,
    old: &Program,
    new: &TypeGraph,
    variable: &StableVariable,
    place: usize,
    parts: &[Vec<Datum>],
) -> Result<Taken, Memory>
    requires { place_from 0 old.now.stable variable.now.name ≡ Some place }
    ensures { IfOk result (λ t. IsTakenOver arena.old (taken_wanted old.now.types new.now old.now.stable (map (λ p. p.items) parts.now) variable.now) t arena.new) }
{
    let Some(from) = type_at(old.stable.as_slice(), place) else {
        return Err(Memory);
    };
    let Some(saved) = parts_at(parts, place) else {
        return Err(Memory);
    };
    kept_at(alloc, arena, &old.types, new, from, variable.of_type, saved)
}

/// What a variable of the new program takes over.
pub(crate) fn take(
    alloc: Global,
    arena: &mut Arena,
    old: &Program,
    new: &TypeGraph,
    variable: &StableVariable,
    parts: &[Vec<Datum>],
) -> Result<Taken, Memory>
    ensures { IfOk result (λ t. IsTakenOver arena.old (taken_wanted old.now.types new.now old.now.stable (map (λ p. p.items) parts.now) variable.now) t arena.new) }
{
    match place_of(old.stable.as_slice(), variable) {
        Some(place) => placed(alloc, arena, old, new, variable, place, parts),
        None => Ok(Taken::Fresh),
    }
}
