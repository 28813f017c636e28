//! The groups of functions that are made so far, numbered from 0.
ghost use Rattle.std.specs.Prelude.{◌≡◌, ◌∷◌, ◌++◌, [], length, IfOk, OnOk};
ghost use Rattle.core_members.specs.Seen.{seen_group, seen_groups};

use core_ir::{CoreBody, Group};
use mo_num::{Memory, Sequence};

/// Adds a group, and gives its number. There are never so many that it is none of 32 bits.
pub fn add_group(
    groups: &mut Sequence<Group<CoreBody>>,
    group: Group<CoreBody>,
) -> Result<u32, Memory>
    ensures number { IfOk result (λ number. number ≡ length groups.old) }
    ensures added { OnOk result (seen_groups groups.new ≡ seen_groups groups.old ++ seen_group group ∷ []) }
{
    let number = match u32::try_from(groups.len()) {
        Ok(number) => number,
        Err(_) => return Err(Memory),
    };
    groups.push(group)?;
    Ok(number)
}
