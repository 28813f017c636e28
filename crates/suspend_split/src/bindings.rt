//! Bindings: the names that they bind, and the slots that they take.
ghost use Rattle.std.specs.Prelude.{◌≡◌, ◌≤◌, ◌<◌, IfOk, length, slice_index_or};
ghost use Rattle.suspend_split.specs.Bindings.{Opens, OpensAll, Slots, nowhere};
ghost use Rattle.suspend_split.specs.Makes.{size_of};

use crate::operands::{after, operand_of};
use core_ir::{Binding, Operand, Outermost, Scopes};
use mo_num::Memory;
use std::alloc::Global;

/// A place in a block: the names in scope, and the first of the free slots.
#[derive(Clone, Copy, Debug, PartialEq, Eq)]
pub(crate) struct Opening {
    pub scope: u32,
    pub free: u32,
}

/// The place behind each of the bindings, the one before all of them first.
pub(crate) fn open_all(
    alloc: Global,
    sizes: &[u32],
    outermost: &Outermost,
    bindings: &[Binding],
    opening: Opening,
    scopes: &mut Scopes,
) -> Result<Vec<Opening>, Memory>
    requires { opening.scope ≤ length scopes.old }
    ensures { IfOk result (λ openings. OpensAll outermost.now sizes.now bindings.now opening openings.items scopes.old scopes.new) }
{
    let mut openings = Vec::new(alloc);
    openings.push(opening)?;
    let mut at = opening;
    for binding in bindings {
        at = open(alloc, sizes, outermost, binding, at, scopes)?;
        openings.push(at)?;
    }
    Ok(openings)
}

// The place behind a binding.
fn open(
    alloc: Global,
    sizes: &[u32],
    outermost: &Outermost,
    binding: &Binding,
    at: Opening,
    scopes: &mut Scopes,
) -> Result<Opening, Memory>
    requires { at.scope ≤ length scopes.old }
    ensures { IfOk result (λ behind. Opens outermost.now sizes.now binding.now at behind scopes.old scopes.new) }
{
    match binding {
        Binding::Value(value) => {
            let operand = operand_of(alloc, outermost, scopes, value, at.free, at.scope)?;
            let free = after(at.free, 1)?;
            let scope = scopes.add(operand, at.scope)?;
            Ok(Opening { scope, free })
        }
        Binding::Functions(group) => {
            let count = size_of_group(sizes, *group);
            let free = after(at.free, count as usize)?;
            let scope = open_functions(at.free, count, at.scope, scopes)?;
            Ok(Opening { scope, free })
        }
    }
}

// The scope inside this one whose nearest names are so many slots.
fn open_functions(first: u32, count: u32, scope: u32, scopes: &mut Scopes) -> Result<u32, Memory>
    requires { scope ≤ length scopes.old }
    ensures { IfOk result (λ inner. Slots first count scope inner scopes.old scopes.new) }
{
    let mut inner = scope;
    let mut number = count;
    while number > 0 {
        number -= 1;
        let slot = after(first, number as usize)?;
        inner = scopes.add(Operand::Slot(slot), inner)?;
    }
    Ok(inner)
}

// How many functions a group has.
pub(crate) fn size_of_group(sizes: &[u32], group: u32) -> u32
    ensures { result ≡ size_of sizes.now group }
{
    match sizes.get(group as usize) {
        Some(size) => *size,
        None => 0,
    }
}

/// The place with this number.
pub(crate) fn opening_at(openings: &[Opening], number: usize, scopes: &Scopes) -> Opening
    requires within { number < length openings.now }
    requires there { (slice_index_or openings.now number nowhere).scope ≤ length scopes.now }
    ensures is { result ≡ slice_index_or openings.now number nowhere }
    ensures scope { result.scope ≤ length scopes.now }
{
    openings[number]
}
