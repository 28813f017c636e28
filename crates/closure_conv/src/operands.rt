//! Operands: uses of captured values, and where a group sees them.
ghost use Rattle.std.specs.Prelude.{◌≡◌, IfOk, OnOk, map};
ghost use Rattle.core_ir.specs.CodeView.{seen_names};
ghost use Rattle.core_ir.specs.ScopeNames.{name_at, scope_names};
ghost use Rattle.core_laws.specs.Conversion.{seen_as};
ghost use Rattle.core_laws.specs.Uses.{picked, use_all, use_operand};

use crate::uses::Uses;
use core_ir::{Constant, Operand, Outermost, Scopes, Seen, Shared};
use mo_num::{Memory, Sequence};
use std::alloc::Global;

/// A use of what the operand reads.
pub(crate) fn use_operand(operand: &Operand, used: &mut Uses) -> Result<(), Memory>
    ensures { OnOk result (used.new ≡ use_operand operand.now used.old) }
{
    match operand {
        Operand::Captured(place) => used.add(*place),
        Operand::Slot(_) | Operand::Member(_) | Operand::Global(_) | Operand::Constant(_) => Ok(()),
    }
}

/// Uses of what the operands read.
pub(crate) fn use_all(operands: &[Operand], used: &mut Uses) -> Result<(), Memory>
    ensures { OnOk result (used.new ≡ use_all operands.now used.old) }
{
    for operand in operands {
        use_operand(operand, used)?;
    }
    Ok(())
}

/// The operand of the value that a group sees at this place where it is made; one that is not there reads `()`.
pub(crate) fn seen_at(
    alloc: Global,
    scopes: &Scopes,
    outermost: &Outermost,
    seen: &Seen,
    place: u32,
) -> Result<Operand, Memory>
    ensures { IfOk result (λ operand. operand ≡ name_at (seen_names (scope_names scopes.now outermost.now) seen.now) place) }
{
    match seen {
        Seen::Scope(scope) => scopes.name(alloc, outermost, *scope, place),
        Seen::Listed(operands) => listed_at(alloc, operands.as_slice(), place as usize),
    }
}

// The operand at this place of a list; one that is not there reads `()`.
fn listed_at(alloc: Global, operands: &[Operand], place: usize) -> Result<Operand, Memory>
    ensures { IfOk result (λ operand. operand ≡ name_at operands.now place) }
{
    match operands.get(place) {
        Some(operand) => operand.copy(),
        None => Ok(Operand::Constant(Shared::new(alloc, Constant::Unit)?)),
    }
}

/// Uses of the values that a group needs of those that it sees.
pub(crate) fn use_picked(
    alloc: Global,
    scopes: &Scopes,
    outermost: &Outermost,
    seen: &Seen,
    needs: &[u32],
    used: &mut Uses,
) -> Result<(), Memory>
    ensures { OnOk result (used.new ≡ use_all (picked (seen_names (scope_names scopes.now outermost.now) seen.now) needs.now) used.old) }
{
    for place in needs {
        let operand = seen_at(alloc, scopes, outermost, seen, *place)?;
        use_operand(&operand, used)?;
    }
    Ok(())
}

/// The operand in a group that sees the used values alone.
pub(crate) fn convert_operand(used: &Uses, operand: &Operand) -> Result<Operand, Memory>
    ensures { IfOk result (λ made. made ≡ seen_as used.now operand.now) }
{
    match operand {
        Operand::Captured(place) => {
            let Ok(index) = u32::try_from(used.index(*place)) else {
                return Err(Memory);
            };
            Ok(Operand::Captured(index))
        }
        Operand::Slot(_) | Operand::Member(_) | Operand::Global(_) | Operand::Constant(_) => {
            operand.copy()
        }
    }
}

/// The operands in a group that sees the used values alone.
pub(crate) fn convert_all(
    alloc: Global,
    used: &Uses,
    operands: &[Operand],
) -> Result<Sequence<Operand>, Memory>
    ensures { IfOk result (λ made. made ≡ map (seen_as used.now) operands.now) }
{
    let mut made = Sequence::from_vec(Vec::with_capacity(alloc, operands.len())?);
    for operand in operands {
        made.push(convert_operand(used, operand)?)?;
    }
    Ok(made)
}

/// The values that a group needs of those that it sees, in a group that sees the used values alone.
pub(crate) fn convert_picked(
    alloc: Global,
    used: &Uses,
    scopes: &Scopes,
    outermost: &Outermost,
    seen: &Seen,
    needs: &[u32],
) -> Result<Sequence<Operand>, Memory>
    ensures { IfOk result (λ made. made ≡ map (seen_as used.now) (picked (seen_names (scope_names scopes.now outermost.now) seen.now) needs.now)) }
{
    let mut made = Sequence::from_vec(Vec::with_capacity(alloc, needs.len())?);
    for place in needs {
        let operand = seen_at(alloc, scopes, outermost, seen, *place)?;
        made.push(convert_operand(used, &operand)?)?;
    }
    Ok(made)
}
