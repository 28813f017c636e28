//! The values of stable variables, part by part.
ghost use Rattle.std.specs.Prelude.{◌≡◌, ℕ, map, slice_get, IfOk};
ghost use Rattle.mo_types.specs.Heads.{map_option};
ghost use Rattle.typed_tree.specs.Language.{Functions};
ghost use Rattle.typed_tree.specs.ProgramView.{stable_variable};
ghost use Rattle.value_arena.specs.Growth.{AreWithin};
ghost use Rattle.arena_states.specs.Standing.{list_of};
ghost use Rattle.arena_saving.specs.Saving.{parts_in, parts_there};

use arena_messages::plain;
use mo_num::Memory;
use mo_types::{Datum, TypeGraph};
use std::alloc::Global;
use typed_tree::StableVariable;
use value_arena::{Arena, ValueId};

// The value at this place.
fn value_at(values: &[ValueId], index: usize) -> Option<ValueId>
    ensures { result ≡ slice_get values.now index }
{
    values.get(index).copied()
}

// The parts of the value at this place, or none where there is none, or it is not of its type.
fn value_parts(
    alloc: Global,
    arena: &Arena,
    types: &TypeGraph,
    variable: &StableVariable,
    values: &[ValueId],
    index: usize,
) -> Result<Option<Vec<Datum>>, Memory>
    requires { AreWithin arena.now values.now }
    ensures { IfOk result (λ o. (groups : ℕ → Functions) → map_option (λ p. p.items) o ≡ parts_there types.now (stable_variable variable.now) (slice_get (list_of groups arena.now values.now) index)) }
{
    match value_at(values, index) {
        Some(value) => plain(alloc, arena, types, variable.of_type, value),
        None => Ok(None),
    }
}

/// The parts of each value at the type of its variable, or none where there are fewer values, or one is not of its type.
pub(crate) fn variables(
    alloc: Global,
    arena: &Arena,
    types: &TypeGraph,
    stable: &[StableVariable],
    values: &[ValueId],
) -> Result<Option<Vec<Vec<Datum>>>, Memory>
    requires { AreWithin arena.now values.now }
    ensures { IfOk result (λ o. (groups : ℕ → Functions) → map_option (λ ps. map (λ p. p.items) ps.items) o ≡ parts_in types.now (map stable_variable stable.now) (list_of groups arena.now values.now)) }
{
    let mut found = Vec::new(alloc);
    for variable in stable {
        match value_parts(alloc, arena, types, variable, values, found.len())? {
            Some(parts) => found.push(parts)?,
            None => return Ok(None),
        }
    }
    Ok(Some(found))
}
