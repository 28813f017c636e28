//! How many functions groups have.
ghost use Rattle.std.specs.Prelude.{◌≡◌, IfOk};
ghost use Rattle.core_measures.specs.Sizes.{size_of, sizes_of};

use core_ir::{CoreBody, Group};
use mo_num::Memory;
use std::alloc::Global;

/// The number, where it is less than 2 ^ 32; more things of a program have no room in memory.
pub(crate) fn count(number: usize) -> Result<u32, Memory>
    ensures { IfOk result (λ n. n ≡ number) }
{
    match u32::try_from(number) {
        Ok(number) => Ok(number),
        Err(_) => Err(Memory),
    }
}

/// How many functions a group has; one that is not there has none.
pub(crate) fn size_of_group(sizes: &[u32], group: u32) -> u32
    ensures { result ≡ size_of sizes.now group }
{
    match sizes.get(group as usize) {
        Some(size) => *size,
        None => 0,
    }
}

/// How many functions each group has.
pub(crate) fn group_sizes(alloc: Global, groups: &[Group<CoreBody>]) -> Result<Vec<u32>, Memory>
    ensures { IfOk result (λ sizes. sizes.items ≡ sizes_of groups.now) }
{
    let mut sizes = Vec::new(alloc);
    for group in groups {
        sizes.push(count(group.bodies.len())?)?;
    }
    Ok(sizes)
}
