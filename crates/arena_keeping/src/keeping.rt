//! The values of all stable variables.
ghost use Rattle.std.specs.Prelude.{map, IfOk};
ghost use Rattle.mo_types.specs.Heads.{map_option};
ghost use Rattle.arena_keeping.specs.Keeping.{AreTakenOver, IsPut};

use crate::taken::Taken;
use crate::taking::take;
use mo_num::Memory;
use mo_types::Datum;
use std::alloc::Global;
use typed_tree::Program;
use value_arena::{Arena, ValueId};

// Puts what was taken over, where it is compatible.
fn put_taken(taken: Taken, found: &mut Vec<Option<ValueId>>) -> Result<bool, Memory>
    ensures { IfOk result (λ fits. IsPut taken fits found.old.items found.new.items) }
{
    match taken {
        Taken::Fresh => {
            found.push(None)?;
            Ok(true)
        }
        Taken::Kept(value) => {
            found.push(Some(value))?;
            Ok(true)
        }
        Taken::Incompatible => Ok(false),
    }
}

/// What each stable variable of the new program takes over of the old one's, of which these are the parts that were saved, or none
/// where one of them is incompatible: exactly what the meaning says. After an error the arena may have further nodes.
pub fn keep_values(
    alloc: Global,
    arena: &mut Arena,
    old: &Program,
    new: &Program,
    parts: &[Vec<Datum>],
) -> Result<Option<Vec<Option<ValueId>>>, Memory>
    ensures { IfOk result (λ o. AreTakenOver arena.old old.now new.now (map (λ p. p.items) parts.now) (map_option (λ v. v.items) o) arena.new) }
{
    let mut found = Vec::new(alloc);
    for variable in new.stable.as_slice() {
        let taken = take(alloc, arena, old, &new.types, variable, parts)?;
        let fits = put_taken(taken, &mut found)?;
        if !fits {
            return Ok(None);
        }
    }
    Ok(Some(found))
}
