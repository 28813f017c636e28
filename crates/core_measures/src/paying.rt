//! Whether groups pay for what their functions name of what they see.
ghost use Rattle.std.specs.Prelude.{◌≡◌, ◌+◌, ◌*◌, ◌≤◌, ◌&&◌, ℕ, [], length, map, Decides, IfOk};
ghost use Rattle.core_ir.specs.Choices.{nth};
ghost use Rattle.core_ir.specs.Expressions.{Core as Program, nodes_of};
ghost use Rattle.core_ir.specs.Formed.{PaidCoreGroups};
ghost use Rattle.core_ir.specs.Outward.{distinct, outward_bodies, outward_of};
ghost use Rattle.core_ir.specs.View.{core_body};
ghost use Rattle.core_measures.specs.Sizes.{size_of};
ghost use Rattle.core_measures.specs.Within.{core_group};

use crate::measures::sum;
use crate::names::{Names, distinct_count, needed};
use crate::naming::bodies_names;
use crate::sizes::count;
use core_ir::{CoreBody, Group};
use mo_num::Memory;
use std::alloc::Global;

// What the functions of a group name of what it sees.
fn group_names(
    alloc: Global,
    sizes: &[u32],
    needs: &[Names],
    bodies: &[CoreBody],
) -> Result<Names, Memory>
    ensures { IfOk result (λ names. names ≡ outward_bodies (size_of sizes.now) needs.now (length bodies.now) (map core_body bodies.now)) }
{
    let mut names = Names::new(alloc);
    let size = count(bodies.len())?;
    bodies_names(sizes, needs, size, bodies, &mut names)?;
    Ok(names)
}

/// What each group names of what it sees.
pub(crate) fn all_names(
    alloc: Global,
    sizes: &[u32],
    groups: &[Group<CoreBody>],
) -> Result<Vec<Names>, Memory>
    ensures { IfOk result (λ needs. needs.items ≡ outward_of (size_of sizes.now) [] (map core_group groups.now)) }
{
    let mut needs = Vec::new(alloc);
    for group in groups {
        let names = group_names(alloc, sizes, &needs, group.bodies.as_slice())?;
        needs.push(names)?;
    }
    Ok(needs)
}

// The nodes of all of these bodies.
fn all_nodes(bodies: &[CoreBody]) -> Result<u32, Memory>
    ensures { IfOk result (λ nodes. nodes ≡ nodes_of (map core_body bodies.now)) }
{
    let mut all = 0;
    let mut number = bodies.len();
    while number > 0 {
        number -= 1;
        all = sum(bodies[number].nodes, all)?;
    }
    Ok(all)
}

fn is_paid(functions: u32, names: u32, nodes: u32) -> bool
    ensures { Decides result (2 * functions + names ≤ 4 * (1 + nodes)) }
{
    2 * u64::from(functions) + u64::from(names) <= 4 * (1 + u64::from(nodes))
}

// Names are counted once each only where they are too many with those that come again.
fn group_is_paid(names: &[u32], bodies: &[CoreBody]) -> Result<bool, Memory>
    ensures { IfOk result (λ yes. Decides yes (2 * length bodies.now + length (distinct names.now) ≤ 4 * (1 + nodes_of (map core_body bodies.now)))) }
{
    let functions = count(bodies.len())?;
    let nodes = all_nodes(bodies)?;
    if is_paid(functions, count(names.len())?, nodes) {
        return Ok(true);
    }
    Ok(is_paid(functions, distinct_count(names)?, nodes))
}

fn all_of(one: bool, others: bool) -> bool
    ensures { result ≡ (one && others) }
{
    one && others
}

/// Whether each group pays for its functions and for these names.
pub(crate) fn are_paid(needs: &[Names], groups: &[Group<CoreBody>]) -> Result<bool, Memory>
    ensures { IfOk result (λ yes. (own : ℕ) (p : Program) → Decides yes (PaidCoreGroups own p needs.now (map core_group groups.now))) }
{
    let mut all = true;
    let mut number = groups.len();
    while number > 0 {
        number -= 1;
        let at = count(number)?;
        let one = group_is_paid(needed(needs, at), groups[number].bodies.as_slice())?;
        all = all_of(one, all);
    }
    Ok(all)
}
