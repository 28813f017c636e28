//! The results of a shared function.
ghost use Rattle.std.specs.Prelude.{◌≡◌, ℕ, IfOk};
ghost use Rattle.mo_machine.specs.Messages.{unpacked};
ghost use Rattle.mo_machine.specs.Values.{listed};
ghost use Rattle.typed_tree.specs.Language.{Functions};
ghost use Rattle.value_arena.specs.Growth.{AreWithin, IsWithin};
ghost use Rattle.value_arena.specs.Meaning.{value_of, values_of};
ghost use Rattle.arena_coding.specs.Coded.{tuple_values};

use mo_num::Memory;
use mo_types::TypeId;
use std::alloc::Global;
use value_arena::{Arena, ValueHead, ValueId};

// The parts of a tuple, or none.
fn tuple_parts(alloc: Global, arena: &Arena, value: ValueId) -> Result<Vec<ValueId>, Memory>
    requires { IsWithin arena.now value }
    ensures means { IfOk result (λ vs. (groups : ℕ → Functions) → listed (values_of groups arena.now vs.items) ≡ tuple_values (value_of groups arena.now value)) }
    ensures within { IfOk result (λ vs. AreWithin arena.now vs.items) }
{
    match arena.made(value) {
        Some((ValueHead::Tuple, parts)) => Ok(Vec::from_slice(alloc, parts)?),
        _ => Ok(Vec::new(alloc)),
    }
}

/// The values of results of these types: none for `()`, and the parts of a tuple for two or more (Motoko language manual,
/// section "Shared functions").
pub fn unpacked(
    alloc: Global,
    arena: &Arena,
    types: &[TypeId],
    value: ValueId,
) -> Result<Vec<ValueId>, Memory>
    requires { IsWithin arena.now value }
    ensures means { IfOk result (λ vs. (groups : ℕ → Functions) → listed (values_of groups arena.now vs.items) ≡ unpacked types.now (value_of groups arena.now value)) }
    ensures within { IfOk result (λ vs. AreWithin arena.now vs.items) }
{
    match types {
        [] => Ok(Vec::new(alloc)),
        [_one] => Ok(Vec::from_slice(alloc, &[value])?),
        _ => tuple_parts(alloc, arena, value),
    }
}
