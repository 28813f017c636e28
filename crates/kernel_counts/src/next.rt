//! Counting.
ghost use Rattle.std.specs.Prelude.{IfOk};
ghost use Rattle.kernel_counts.specs.Counting.{Counts};

use mo_num::Memory;

/// One node more. `Memory` where that is no number: so many nodes does no memory hold.
pub(crate) fn one_more(counted: u32) -> Result<u32, Memory>
    ensures { IfOk result (Counts 1 counted) }
{
    counted.checked_add(1).ok_or(Memory)
}
