//! What cells hold.
ghost use Rattle.std.specs.Prelude.{◌≡◌, ℕ, [], ◌∷◌, IfOk};
ghost use Rattle.typed_tree.specs.Language.{Functions};
ghost use Rattle.value_arena.specs.Growth.{AreWithin, IsWithin};
ghost use Rattle.arena_states.specs.Standing.{list_of};
ghost use Rattle.arena_saving.specs.Saving.{held_in, AreHeld};

use arena_members::held;
use mo_num::Memory;
use std::alloc::Global;
use value_arena::{Arena, ValueId};

// Puts what a cell holds, where it holds something.
fn put_held(
    arena: &Arena,
    store: &[ValueId],
    cell: ValueId,
    found: &mut Vec<ValueId>,
) -> Result<(), Memory>
    requires store { AreWithin arena.now store.now }
    requires cell { IsWithin arena.now cell }
    ensures { IfOk result (λ u. AreHeld arena.now store.now (cell ∷ []) found.old.items found.new.items) }
{
    match held(arena, store, cell) {
        Some(value) => Ok(found.push(value)?),
        None => Ok(()),
    }
}

/// What these cells hold. A cell that holds nothing is passed over.
pub(crate) fn held_in(
    alloc: Global,
    arena: &Arena,
    store: &[ValueId],
    cells: &[ValueId],
) -> Result<Vec<ValueId>, Memory>
    requires store { AreWithin arena.now store.now }
    requires cells { AreWithin arena.now cells.now }
    ensures means { IfOk result (λ ids. (groups : ℕ → Functions) → list_of groups arena.now ids.items ≡ held_in (list_of groups arena.now store.now) (list_of groups arena.now cells.now)) }
    ensures within { IfOk result (λ ids. AreWithin arena.now ids.items) }
{
    let mut found = Vec::new(alloc);
    for cell in cells {
        put_held(arena, store, *cell, &mut found)?;
    }
    Ok(found)
}
