//! Where the hook before an upgrade begins.
ghost use Rattle.std.specs.Prelude.{IfOk};
ghost use Rattle.value_arena.specs.Growth.{IsWithin};
ghost use Rattle.arena_saving.specs.Saving.{IsHooked};

use crate::exports::hook_of;
use arena_states::{Doing, Focus, Primitive};
use mo_num::Memory;
use std::alloc::Global;
use value_arena::{Arena, ValueId};

/// The hook is called, where there is one. After an error the arena may have further nodes.
pub(crate) fn begin<'a>(
    alloc: Global,
    arena: &mut Arena,
    exports: ValueId,
) -> Result<Focus<'a>, Memory>
    requires { IsWithin arena.old exports }
    ensures { IfOk result (λ f. IsHooked arena.old exports f arena.new) }
{
    match hook_of(arena, exports) {
        Some(function) => {
            let operands = Vec::from_slice(alloc, &[function])?;
            Ok(Focus::Ready(Doing::Built(Primitive::Call), operands))
        }
        None => Ok(Focus::Give(arena.unit(alloc)?)),
    }
}
