//! The types of the parts of a message, each before those of the parts inside it.
ghost use Rattle.std.specs.Prelude.{◌≡◌, ◌++◌, reverse, IfOk, OnOk};
ghost use Rattle.mo_types.specs.Graph.{head_at};
ghost use Rattle.arena_reading.specs.Opening.{types_along};

use mo_num::Memory;
use mo_types::{Datum, TypeGraph, TypeId};
use part_types::types_inside;
use std::alloc::Global;

// Puts types before those that wait, the first one at the top.
fn put_first(inside: Vec<TypeId>, waiting: &mut Vec<TypeId>) -> Result<(), Memory>
    ensures { OnOk result (reverse waiting.new.items ≡ inside.items ++ reverse waiting.old.items) }
{
    let mut inside = inside;
    while let Some(last) = inside.pop() {
        waiting.push(last)?;
    }
    Ok(())
}

/// The type of each of these parts, where values of these types are written part by part. Takes no native stack.
pub(crate) fn types_along(
    alloc: Global,
    types: &TypeGraph,
    ids: &[TypeId],
    parts: &[Datum],
) -> Result<Vec<TypeId>, Memory>
    ensures { IfOk result (λ ts. ts.items ≡ types_along (head_at types.now) ids.now parts.now) }
{
    let mut found = Vec::new(alloc);
    let mut waiting = Vec::new(alloc);
    put_first(Vec::from_slice(alloc, ids)?, &mut waiting)?;
    for part in parts {
        let Some(of_type) = waiting.pop() else {
            return Ok(found);
        };
        found.push(of_type)?;
        if let Some(node) = types.get(of_type) {
            put_first(types_inside(alloc, node, part)?, &mut waiting)?;
        }
    }
    Ok(found)
}
