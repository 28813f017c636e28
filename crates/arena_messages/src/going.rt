//! Which values go into a message at a type.
ghost use Rattle.std.specs.Prelude.{◌≡◌, ℕ, is_some, IfOk};
ghost use Rattle.mo_types.specs.Graph.{head_at};
ghost use Rattle.mo_values.specs.Messages.{plain};
ghost use Rattle.mo_machine.specs.Values.{shape_of};
ghost use Rattle.typed_tree.specs.Language.{Functions};
ghost use Rattle.value_arena.specs.Growth.{IsWithin};
ghost use Rattle.value_arena.specs.Meaning.{value_of};
ghost use Rattle.arena_messages.specs.Asking.{IsAsked};

use crate::fits::fits;
use crate::waiting::{AtType, push_inside};
use mo_num::Memory;
use mo_types::{TypeGraph, TypeId};
use std::alloc::Global;
use value_arena::{Arena, ValueId};

/// Whether a value may be of its type, by what is outermost in it. The values inside it then wait for their turn.
fn ask(
    arena: &Arena,
    types: &TypeGraph,
    asked: AtType,
    waiting: &mut Vec<AtType>,
) -> Result<bool, Memory>
    requires { IsWithin arena.now asked.value }
    ensures { IfOk result (λ b. IsAsked types.now arena.now asked b waiting.old.items waiting.new.items) }
{
    let Some(node) = types.get(asked.of_type) else {
        return Ok(false);
    };
    match arena.made(asked.value) {
        Some((head, values)) => {
            if !fits(node, head, values.len()) {
                return Ok(false);
            }
            push_inside(node, head, values, waiting)?;
            Ok(true)
        }
        None => Ok(node.is_any()),
    }
}

/// Whether the value goes into a message at the type. Takes memory by the values inside it, and no native stack.
pub fn goes(
    alloc: Global,
    arena: &Arena,
    types: &TypeGraph,
    of_type: TypeId,
    value: ValueId,
) -> Result<bool, Memory>
    requires { IsWithin arena.now value }
    ensures { IfOk result (λ b. (groups : ℕ → Functions) → b ≡ is_some (plain (head_at types.now) of_type (shape_of (value_of groups arena.now value)))) }
{
    let mut waiting = Vec::new(alloc);
    waiting.push(AtType { of_type, value })?;
    while let Some(asked) = waiting.pop() {
        let fitting = ask(arena, types, asked, &mut waiting)?;
        if !fitting {
            return Ok(false);
        }
    }
    Ok(true)
}
