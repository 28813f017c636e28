//! The parts of several values.
ghost use Rattle.std.specs.Prelude.{◌≡◌, ℕ, IfOk};
ghost use Rattle.mo_types.specs.Heads.{map_option};
ghost use Rattle.mo_types.specs.Values.{flat};
ghost use Rattle.mo_machine.specs.Messages.{plain_values};
ghost use Rattle.mo_machine.specs.Values.{listed};
ghost use Rattle.typed_tree.specs.Language.{Functions};
ghost use Rattle.value_arena.specs.Growth.{AreWithin};
ghost use Rattle.value_arena.specs.Meaning.{values_of};

use arena_messages::plain;
use mo_num::Memory;
use mo_types::{Datum, TypeGraph, TypeId};
use std::alloc::Global;
use value_arena::{Arena, ValueId};

/// The parts of values at their types, those of one value behind those of the other, as far as there are both types and
/// values; or none where a value does not go into a message at its type.
pub(crate) fn all_parts(
    alloc: Global,
    arena: &Arena,
    types: &TypeGraph,
    ids: &[TypeId],
    values: &[ValueId],
) -> Result<Option<Vec<Datum>>, Memory>
    requires { AreWithin arena.now values.now }
    ensures { IfOk result (λ o. (groups : ℕ → Functions) → map_option (λ p. p.items) o ≡ map_option flat (plain_values types.now ids.now (listed (values_of groups arena.now values.now)))) }
{
    let mut parts = Vec::new(alloc);
    for (place, value) in values.iter().enumerate() {
        if place < ids.len() {
            match plain(alloc, arena, types, ids[place], *value)? {
                Some(more) => {
                    let mut more = more;
                    parts.append(&mut more)?;
                }
                None => return Ok(None),
            }
        }
    }
    Ok(Some(parts))
}
