//! Operands: constants and names are read where they are used, and all else stands in a slot.
ghost use Rattle.std.specs.Prelude.{◌≡◌, ◌+◌, IfOk, map};
ghost use Rattle.core_ir.specs.ScopeNames.{scope_names};
ghost use Rattle.core_ir.specs.View.{exps, expression as expression_view};
ghost use Rattle.core_laws.specs.Slots.{first as first_of, operand as operand_form, operands as operand_forms, others as others_of, place, slot};

use core_ir::{Expression, Operand, Outermost, Scopes};
use mo_num::{Memory, Sequence};
use std::alloc::Global;

/// The operand that reads the value of an expression, which stands in the free slot if it is computed.
#[tactic(auto, unfolding(core_ir::specs::View::expression, core_ir::specs::View::goal, core_ir::specs::View::binding))]
pub(crate) fn operand_of(
    alloc: Global,
    outermost: &Outermost,
    scopes: &Scopes,
    expression: &Expression,
    free: u32,
    scope: u32,
) -> Result<Operand, Memory>
    ensures { IfOk result (λ operand. operand ≡ operand_form (scope_names scopes.now outermost.now scope) (expression_view expression.now) free) }
{
    match expression {
        Expression::Constant(constant) => Ok(Operand::Constant(constant.share()?)),
        Expression::Name(name) => scopes.name(alloc, outermost, scope, *name),
        Expression::Global(name) => Ok(Operand::Global(*name)),
        Expression::Do(_, _) => Ok(Operand::Slot(free)),
        Expression::Block(bindings, value) => {
            if bindings.len() > 0 {
                return Ok(Operand::Slot(free));
            }
            operand_of(alloc, outermost, scopes, value.get(), free, scope)
        }
        Expression::Loop(_) => Ok(Operand::Slot(free)),
        Expression::Label(_) => Ok(Operand::Slot(free)),
        Expression::Try(_, _) => Ok(Operand::Slot(free)),
    }
}

/// The slot into which an expression is computed, if it is.
#[tactic(auto, unfolding(core_ir::specs::View::expression, core_ir::specs::View::goal, core_ir::specs::View::binding))]
pub(crate) fn place_of(expression: &Expression, free: u32) -> Option<u32>
    ensures { result ≡ place (expression_view expression.now) free }
{
    match expression {
        Expression::Constant(_) => None,
        Expression::Name(_) => None,
        Expression::Global(_) => None,
        Expression::Do(_, _) => Some(free),
        Expression::Block(bindings, value) => {
            if bindings.len() > 0 {
                return Some(free);
            }
            place_of(value.get(), free)
        }
        Expression::Loop(_) => Some(free),
        Expression::Label(_) => Some(free),
        Expression::Try(_, _) => Some(free),
    }
}

/// The operands that read the values of arguments, one slot for each.
pub(crate) fn operands_of(
    alloc: Global,
    outermost: &Outermost,
    scopes: &Scopes,
    arguments: &[Expression],
    free: u32,
    scope: u32,
) -> Result<Sequence<Operand>, Memory>
    ensures { IfOk result (λ operands. operands ≡ operand_forms (scope_names scopes.now outermost.now scope) (exps (map expression_view arguments.now)) free) }
{
    let mut operands = Sequence::from_vec(Vec::with_capacity(alloc, arguments.len())?);
    let mut next = free;
    for argument in arguments {
        operands.push(operand_of(alloc, outermost, scopes, argument, next, scope)?)?;
        next = after(next, 1)?;
    }
    Ok(operands)
}

/// The slot so many behind this one. A frame of more than 2 ^ 32 slots is taken for one that does not fit into memory.
pub(crate) fn after(slot: u32, count: usize) -> Result<u32, Memory>
    ensures { IfOk result (λ next. next ≡ slot + count) }
{
    let Ok(count) = u32::try_from(count) else {
        return Err(Memory);
    };
    match slot.checked_add(count) {
        Some(next) => Ok(next),
        None => Err(Memory),
    }
}

/// The first operand.
pub(crate) fn first(operands: &[Operand]) -> Result<Operand, Memory>
    ensures { IfOk result (λ operand. operand ≡ first_of operands.now) }
{
    match operands.split_first() {
        Some((operand, _)) => operand.copy(),
        None => Ok(Operand::Slot(0)),
    }
}

/// The operands without the first one.
pub(crate) fn others(operands: &[Operand]) -> &[Operand]
    ensures { result.now ≡ others_of operands.now }
{
    match operands.split_first() {
        Some((_, rest)) => rest,
        None => operands,
    }
}

/// The same operands.
pub(crate) fn copied(alloc: Global, operands: &[Operand]) -> Result<Sequence<Operand>, Memory>
    ensures { IfOk result (λ made. made ≡ operands.now) }
{
    let mut made = Sequence::from_vec(Vec::with_capacity(alloc, operands.len())?);
    for operand in operands {
        made.push(operand.copy()?)?;
    }
    Ok(made)
}

/// The slot for a value, which is the free one where the value is not looked at.
pub(crate) fn slot_of(target: Option<u32>, free: u32) -> u32
    ensures { result ≡ slot target free }
{
    match target {
        Some(slot) => slot,
        None => free,
    }
}
