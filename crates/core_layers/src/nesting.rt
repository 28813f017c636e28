//! Layers around an expression.
ghost use Rattle.std.specs.Prelude.{◌≡◌, ◌++◌, map, IfOk};
ghost use Rattle.core_ir.specs.Expressions as tree;
ghost use Rattle.core_ir.specs.View.{binding, block, expression};
ghost use Rattle.core_layers.specs.Layers.{held, layer, layered, pending, seen_fails, IsCheck};

use crate::layer::{Fails, Layer};
use crate::words::one;
use core_ir::{Binding, Constructor, Expression, Goal, Shared};
use mo_num::Memory;
use mo_syntax::{Items, Node, Place};
use std::alloc::Global;

// Bindings around a value, the innermost first.
#[derive(Drop)]
pub(crate) struct Pending {
    bindings: Vec<Binding>,
    value: Expression,
}

// The bindings in the order in which they are evaluated.
fn in_order(alloc: Global, bindings: Vec<Binding>) -> Result<Items<Binding>, Memory>
    ensures { IfOk result (λ made. (e : tree.Exp) → block (map binding made) e ≡ held bindings.items e) }
{
    let mut rest = bindings;
    let mut made = Items::new(alloc);
    while let Some(binding) = rest.pop() {
        made.push(binding)?;
    }
    Ok(made)
}

// As one expression.
#[tactic(auto, unfolding(core_ir::specs::View::expression))]
fn closed(alloc: Global, place: Place, inner: Pending) -> Result<Expression, Memory>
    ensures { IfOk result (λ made. expression made ≡ pending inner) }
{
    let Pending { bindings, value } = inner;
    if bindings.is_empty() {
        return Ok(value);
    }
    Ok(Expression::Block(in_order(alloc, bindings)?, Node::new(alloc, place, value)?))
}

// A branch of two.
#[tactic(auto, unfolding(core_ir::specs::View::expression, core_ir::specs::View::goal))]
fn tested(
    alloc: Global,
    place: Place,
    check: Layer,
    fails: Fails,
    inner: Expression,
) -> Result<Expression, Memory>
    requires { IsCheck check }
    ensures { IfOk result (λ made. expression made ≡ layer check (seen_fails fails) (expression inner)) }
{
    let inner = Node::new(alloc, place, inner)?;
    let other = Node::new(alloc, place, fails.expression(alloc)?)?;
    match check {
        Layer::Binding(_) => unreachable!(),
        Layer::Opens(form, value) => {
            Ok(Expression::Do(Goal::Match(form, inner, other), one(alloc, value)?))
        }
        Layer::IsNull(value) => {
            let form = Shared::new(alloc, Constructor::Present)?;
            Ok(Expression::Do(Goal::Match(form, other, inner), one(alloc, value)?))
        }
        Layer::Holds(what, operands) => {
            Ok(Expression::Do(Goal::Choose(what, inner, other), operands))
        }
    }
}

// One layer more.
fn within(
    alloc: Global,
    place: Place,
    outer: Layer,
    fails: Fails,
    inner: Pending,
) -> Result<Pending, Memory>
    ensures { IfOk result (λ made. pending made ≡ layer outer (seen_fails fails) (pending inner)) }
{
    match outer {
        Layer::Binding(binding) => {
            let Pending { bindings, value } = inner;
            let mut bindings = bindings;
            bindings.push(binding)?;
            Ok(Pending { bindings, value })
        }
        check => {
            let inner = closed(alloc, place, inner)?;
            Ok(Pending {
                bindings: Vec::new(alloc),
                value: tested(alloc, place, check, fails, inner)?,
            })
        }
    }
}

/// The layers around an expression, each around those behind it, with what is done where a check fails. Bindings in a row are one
/// block.
pub fn around(
    alloc: Global,
    place: Place,
    layers: Vec<Layer>,
    fails: Fails,
    inner: Expression,
) -> Result<Expression, Memory>
    ensures { IfOk result (λ made. expression made ≡ layered layers.items (seen_fails fails) (expression inner)) }
{
    let mut rest = layers;
    let mut made = Pending {
        bindings: Vec::new(alloc),
        value: inner,
    };
    while let Some(outer) = rest.pop() {
        made = within(alloc, place, outer, fails, made)?;
    }
    closed(alloc, place, made)
}
