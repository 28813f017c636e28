//! Messages read.
ghost use Rattle.std.specs.Prelude.{IfOk};
ghost use Rattle.mo_types.specs.Graph.{head_at};
ghost use Rattle.mo_types.specs.Heads.{map_option};
ghost use Rattle.arena_reading.specs.Opening.{AreOpened, AreRead, built, types_along as types_of_parts};

use crate::inside::types_along;
use crate::opening::open_parts;
use candid_decode::{WireFault, decode};
use mo_num::Memory;
use mo_types::{Datum, TypeGraph, TypeId};
use std::alloc::Global;
use value_arena::{Arena, ValueId};

/// The values of these types whose parts these are, each part before those inside it. Takes no native stack. After an error the
/// arena may have further nodes.
pub fn values_of_parts(
    alloc: Global,
    arena: &mut Arena,
    types: &TypeGraph,
    ids: &[TypeId],
    parts: &[Datum],
) -> Result<Vec<ValueId>, Memory>
    ensures { IfOk result (λ vs. AreOpened arena.old (built (head_at types.now) (types_of_parts (head_at types.now) ids.now parts.now) parts.now) arena.new vs.items) }
{
    let of = types_along(alloc, types, ids, parts)?;
    let values = open_parts(alloc, arena, types, of.as_slice(), parts)?;
    Ok(values)
}

/// The values of a message at these types, exactly as each faithful coding reads it, or none where its bytes do not read at
/// them. Takes no native stack. After an error the arena may have further nodes.
pub fn read_values(
    alloc: Global,
    arena: &mut Arena,
    types: &TypeGraph,
    ids: &[TypeId],
    bytes: &[u8],
) -> Result<Option<Vec<ValueId>>, Memory>
    ensures { IfOk result (λ o. AreRead types.now ids.now bytes.now arena.old (map_option (λ v. v.items) o) arena.new) }
{
    match decode(alloc, types, ids, bytes) {
        Ok(data) => {
            let values = values_of_parts(alloc, arena, types, ids, data.parts.as_slice())?;
            Ok(Some(values))
        }
        Err(WireFault::Fault(_)) => Ok(None),
        Err(WireFault::Memory) => Err(Memory),
    }
}
