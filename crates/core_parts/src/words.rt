//! Pieces of expressions.
ghost use Rattle.std.specs.Prelude.{◌≡◌, suc, map, IfOk, OnOk};
ghost use Rattle.core_ir.specs.Expressions as tree;
ghost use Rattle.core_ir.specs.View.{exps, expression, goal};
ghost use Rattle.typed_tree.specs.PatternView.{pattern};
ghost use Rattle.elaboration.specs.Checks as checks;
ghost use Rattle.elaboration.specs.Members as members;
ghost use Rattle.core_layers.specs.Layers.{layered};

use core_ir::{Binding, Expression, Goal};
use core_layers::{Checked, Layer, Source, add_pattern, operation};
use core_scopes::Scope;
use mo_num::{Bytes, Memory};
use mo_syntax::Items;
use mo_values::Operation;
use std::alloc::Global;
use typed_tree::TypedPattern;

// The operands as a list of parts.
fn items_of(alloc: Global, operands: Vec<Expression>) -> Result<Items<Expression>, Memory>
    ensures { IfOk result (λ made. made ≡ operands.items) }
{
    let mut made = Items::new(alloc);
    for operand in operands {
        made.push(operand)?;
    }
    Ok(made)
}

/// What is done with the values of operands.
#[tactic(auto, unfolding(core_ir::specs::View::expression, core_ir::specs::View::goal))]
pub fn done(alloc: Global, what: Goal, operands: Vec<Expression>) -> Result<Expression, Memory>
    ensures { IfOk result (λ made. expression made ≡ tree.Do (goal what) (exps (map expression operands.items))) }
{
    Ok(Expression::Do(what, items_of(alloc, operands)?))
}

/// The trap of a value that no pattern matches.
pub fn failure(alloc: Global) -> Result<Expression, Memory>
    ensures { IfOk result (λ made. expression made ≡ checks.fails) }
{
    let text = Bytes::from_slice(alloc, b"pattern failed")?;
    operation(alloc, Operation::Fail(text), Items::new(alloc))
}

/// A value that is the nearest name in what follows.
pub fn under_value(layers: Vec<Layer>, value: Expression) -> Result<Vec<Layer>, Memory>
    ensures { IfOk result (λ made. (fails e : tree.Exp) → layered made.items fails e ≡ layered layers.items fails (members.let_in (expression value) e)) }
{
    let mut layers = layers;
    layers.push(Layer::Binding(Binding::Value(value)))?;
    Ok(layers)
}

/// Functions of a group whose values are the nearest names in what follows.
pub fn grouped(layers: Vec<Layer>, number: u32) -> Result<Vec<Layer>, Memory>
    ensures { IfOk result (λ made. (fails e : tree.Exp) → layered made.items fails e ≡ layered layers.items fails (tree.Functions number e)) }
{
    let mut layers = layers;
    layers.push(Layer::Binding(Binding::Functions(number)))?;
    Ok(layers)
}

/// The checks of a pattern on the name of this level. The scope is that behind them.
pub fn matched(
    alloc: Global,
    typed: &TypedPattern,
    level: u32,
    scope: &mut Scope,
) -> Result<Vec<Layer>, Memory>
    ensures checks { IfOk result (λ made. (fails e : tree.Exp) → layered made.items fails e ≡ checks.around_all (checks.check (pattern typed.now) (checks.Named level) scope.old.names).checks fails e) }
    ensures scope { OnOk result (scope.new ≡ checks.behind (checks.check (pattern typed.now) (checks.Named level) scope.old.names) scope.old) }
{
    let mut checked = Checked::new(alloc, scope.names());
    add_pattern(alloc, typed, Source::Named(level), &mut checked)?;
    let Checked {
        layers,
        names,
        bound,
    } = checked;
    scope.go_behind(bound.as_slice(), names)?;
    Ok(layers)
}

/// How many there are, as a number of names. There are never so many that it is none of 32 bits.
pub fn amount(count: usize) -> Result<u32, Memory>
    ensures { IfOk result (λ made. made ≡ count) }
{
    match u32::try_from(count) {
        Ok(made) => Ok(made),
        Err(_) => Err(Memory),
    }
}

/// One name more. There are never so many that their number is none of 32 bits.
pub fn one_more(names: u32) -> Result<u32, Memory>
    ensures { IfOk result (λ more. more ≡ suc names) }
{
    match names.checked_add(1) {
        Some(more) => Ok(more),
        None => Err(Memory),
    }
}
