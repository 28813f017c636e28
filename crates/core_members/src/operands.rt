//! Names as operands.
ghost use Rattle.std.specs.Prelude.{◌≡◌, ◌+◌, map, IfOk};
ghost use Rattle.core_ir.specs.Expressions as tree;
ghost use Rattle.core_ir.specs.View.{exps, expression};
ghost use Rattle.elaboration.specs.Members as members;
ghost use Rattle.elaboration.specs.Scopes as scopes;
ghost use Rattle.core_layers.specs.Layers.{layered};

use core_ir::{Binding, Expression};
use core_layers::Layer;
use core_scopes::name_at;
use mo_num::Memory;
use mo_syntax::Items;
use std::alloc::Global;

/// The sum of numbers of names. There are never so many that their number is none of 32 bits.
pub(crate) fn sum(first: u32, second: u32) -> Result<u32, Memory>
    ensures { IfOk result (λ sum. sum ≡ first + second) }
{
    match first.checked_add(second) {
        Some(sum) => Ok(sum),
        None => Err(Memory),
    }
}

// The names of these levels, among so many.
fn names_of(alloc: Global, names: u32, levels: &[u32]) -> Result<Items<Expression>, Memory>
    ensures { IfOk result (λ made. exps (map expression made) ≡ members.names_of names levels.now) }
{
    let mut made = Items::new(alloc);
    for level in levels.iter().copied() {
        made.push(name_at(names, level))?;
    }
    Ok(made)
}

// The name behind so many others.
#[tactic(auto, unfolding(core_ir::specs::View::expression))]
fn nearest(behind: u32) -> Expression
    ensures { expression result ≡ tree.Name behind }
{
    Expression::Name(behind)
}

/// The names of these levels, among so many, and then the nearest names, so many.
pub(crate) fn names_and_parameters(
    alloc: Global,
    names: u32,
    levels: &[u32],
    parameters: u32,
) -> Result<Items<Expression>, Memory>
    ensures { IfOk result (λ made. exps (map expression made) ≡ scopes.append (members.names_of names levels.now) (members.nearest 0 parameters)) }
{
    let mut made = names_of(alloc, names, levels)?;
    for parameter in 0..parameters {
        made.push(nearest(parameter))?;
    }
    Ok(made)
}

/// The values of operands, each a name in those behind it.
pub fn bound(alloc: Global, operands: Vec<Expression>) -> Result<Vec<Layer>, Memory>
    ensures { IfOk result (λ made. (fails e : tree.Exp) → layered made.items fails e ≡ members.bind_all (exps (map expression operands.items)) e) }
{
    let mut made = Vec::with_capacity(alloc, operands.len())?;
    for operand in operands {
        made.push(Layer::Binding(Binding::Value(operand)))?;
    }
    Ok(made)
}
