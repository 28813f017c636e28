//! The parts of what the declarations of an actor came to.
ghost use Rattle.std.specs.Prelude.{◌≡◌, ℕ, ◌<◌, List, IfOk, IfSome};
ghost use Rattle.mo_types.specs.Heads.{map_option};
ghost use Rattle.mo_machine.specs.Exports.{before_upgrade, option_value, values_in};
ghost use Rattle.mo_machine.specs.Values.{Value, Made};
ghost use Rattle.typed_tree.specs.Language.{Functions};
ghost use Rattle.value_arena.specs.Growth.{AreBelow, AreWithin, IsWithin};
ghost use Rattle.value_arena.specs.Heads.{head_of};
ghost use Rattle.value_arena.specs.Meaning.{value_at, value_of, values_at};
ghost use Rattle.arena_states.specs.Standing.{list_of};
ghost use Rattle.arena_saving.specs.Saving.{only, stable_cells};

use arena_bodies::listed_at;
use mo_num::Memory;
use std::alloc::Global;
use value_arena::{Arena, ValueHead, ValueId};

// The only one of these values.
fn only(ids: &[ValueId]) -> Option<ValueId>
    ensures { result ≡ only ids.now }
{
    match ids {
        [id] => Some(*id),
        _ => None,
    }
}

// The value of an option that has one.
fn present_in(head: &ValueHead, parts: &[ValueId]) -> Option<ValueId>
    ensures means { (vs : List Value) → map_option (λ v. value_at vs v) result ≡ option_value (Made (head_of head.now) (values_at vs parts.now)) }
    ensures within { (n : ℕ) → AreBelow n parts.now → IfSome result (λ v. v.index < n) }
{
    match head {
        ValueHead::Present => only(parts),
        _ => None,
    }
}

// The same by its number.
fn inside(arena: &Arena, value: ValueId) -> Option<ValueId>
    requires { IsWithin arena.now value }
    ensures means { (groups : ℕ → Functions) → map_option (λ v. value_of groups arena.now v) result ≡ option_value (value_of groups arena.now value) }
    ensures within { IfSome result (λ v. IsWithin arena.now v) }
{
    match arena.made(value) {
        Some((head, parts)) => present_in(head, parts),
        None => None,
    }
}

/// The hook before an upgrade.
pub(crate) fn hook_of(arena: &Arena, exports: ValueId) -> Option<ValueId>
    requires { IsWithin arena.now exports }
    ensures means { (groups : ℕ → Functions) → map_option (λ v. value_of groups arena.now v) result ≡ before_upgrade (value_of groups arena.now exports) }
    ensures within { IfSome result (λ v. IsWithin arena.now v) }
{
    match listed_at(arena, exports, 1) {
        Some(option) => inside(arena, option),
        None => None,
    }
}

// The same values again.
fn copied(alloc: Global, ids: &[ValueId]) -> Result<Vec<ValueId>, Memory>
    ensures { IfOk result (λ copy. copy.items ≡ ids.now) }
{
    Ok(Vec::from_slice(alloc, ids)?)
}

// The parts of a value. A function has none.
fn parts_of(alloc: Global, arena: &Arena, value: ValueId) -> Result<Vec<ValueId>, Memory>
    requires { IsWithin arena.now value }
    ensures means { IfOk result (λ ids. (groups : ℕ → Functions) → list_of groups arena.now ids.items ≡ values_in (value_of groups arena.now value)) }
    ensures within { IfOk result (λ ids. AreWithin arena.now ids.items) }
{
    match arena.made(value) {
        Some((_, parts)) => copied(alloc, parts),
        None => Ok(Vec::new(alloc)),
    }
}

/// The cells of the stable variables.
pub(crate) fn cells_of(
    alloc: Global,
    arena: &Arena,
    exports: ValueId,
) -> Result<Vec<ValueId>, Memory>
    requires { IsWithin arena.now exports }
    ensures means { IfOk result (λ ids. (groups : ℕ → Functions) → list_of groups arena.now ids.items ≡ stable_cells (value_of groups arena.now exports)) }
    ensures within { IfOk result (λ ids. AreWithin arena.now ids.items) }
{
    match listed_at(arena, exports, 3) {
        Some(object) => parts_of(alloc, arena, object),
        None => Ok(Vec::new(alloc)),
    }
}
