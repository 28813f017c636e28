//! Short words for expressions.
ghost use Rattle.std.specs.Prelude.{◌≡◌, ◌∷◌, [], map, IfOk};
ghost use Rattle.core_ir.specs.declared.primitive.Primitive.TheVariants as primitive;
ghost use Rattle.core_ir.specs.Expressions as tree;
ghost use Rattle.core_ir.specs.View.{exps, expression};
ghost use Rattle.elaboration.specs.Checks as checks;
ghost use Rattle.elaboration.specs.Members as members;
ghost use Rattle.elaboration.specs.Scopes as scopes;
ghost use Rattle.typed_tree.specs.PatternView.{literal_part};

use core_ir::{Binding, Constant, Expression, Goal, Primitive, Shared};
use mo_num::{Bytes, Memory};
use mo_syntax::{Items, Node, Place};
use mo_types::Datum;
use mo_values::Operation;
use std::alloc::Global;
use typed_tree::Literal;

/// The outermost part of the value of a literal.
pub fn part_of(alloc: Global, literal: &Literal) -> Result<Datum, Memory>
    ensures { IfOk result (λ part. part ≡ literal_part literal.now) }
{
    match literal {
        Literal::Unit => Ok(Datum::Record(0)),
        Literal::Null => Ok(Datum::Null),
        Literal::Flag(flag) => Ok(Datum::Flag(*flag)),
        Literal::Number(number) => Ok(Datum::Number(*number)),
        Literal::Character(code) => Ok(Datum::Char(*code)),
        Literal::Text(text) => Ok(Datum::Text(Bytes::from_slice(alloc, text.as_slice())?)),
        Literal::Blob(blob) => Ok(Datum::Blob(Bytes::from_slice(alloc, blob.as_slice())?)),
        Literal::Actor(own) => Ok(Datum::Actor(own.copy())),
    }
}

/// One expression as a list.
pub fn one(alloc: Global, only: Expression) -> Result<Items<Expression>, Memory>
    ensures { IfOk result (λ made. made ≡ only ∷ []) }
{
    let mut made = Items::new(alloc);
    made.push(only)?;
    Ok(made)
}

/// Two expressions as a list.
pub fn two(
    alloc: Global,
    first: Expression,
    second: Expression,
) -> Result<Items<Expression>, Memory>
    ensures { IfOk result (λ made. made ≡ first ∷ second ∷ []) }
{
    let mut made = Items::new(alloc);
    made.push(first)?;
    made.push(second)?;
    Ok(made)
}

/// `()`
#[tactic(auto, unfolding(core_ir::specs::View::expression))]
pub fn unit(alloc: Global) -> Result<Expression, Memory>
    ensures { IfOk result (λ made. expression made ≡ scopes.nothing) }
{
    Ok(Expression::Constant(Shared::new(alloc, Constant::Unit)?))
}

/// `true` or `false`
#[tactic(auto, unfolding(core_ir::specs::View::expression))]
pub fn flag(alloc: Global, truth: bool) -> Result<Expression, Memory>
    ensures { IfOk result (λ made. expression made ≡ checks.flag truth) }
{
    Ok(Expression::Constant(Shared::new(alloc, Constant::Leaf(Datum::Flag(truth)))?))
}

/// The primitive on these operands.
#[tactic(auto, unfolding(core_ir::specs::View::expression, core_ir::specs::View::goal))]
pub fn does(
    alloc: Global,
    what: Primitive,
    operands: Items<Expression>,
) -> Result<Expression, Memory>
    ensures { IfOk result (λ made. expression made ≡ tree.Do (tree.Operate what) (exps (map expression operands))) }
{
    Ok(Expression::Do(Goal::Operate(Shared::new(alloc, what)?), operands))
}

/// The operation on these operands.
pub fn operation(
    alloc: Global,
    what: Operation,
    operands: Items<Expression>,
) -> Result<Expression, Memory>
    ensures { IfOk result (λ made. expression made ≡ tree.Do (tree.Operate (primitive.Operate what)) (exps (map expression operands))) }
{
    does(alloc, Primitive::Operate(what), operands)
}

/// `let a = ..; b`, where the value is the nearest name in what follows.
#[tactic(auto, unfolding(core_ir::specs::View::expression, core_ir::specs::View::binding))]
pub fn let_in(
    alloc: Global,
    place: Place,
    value: Expression,
    rest: Expression,
) -> Result<Expression, Memory>
    ensures { IfOk result (λ made. expression made ≡ members.let_in (expression value) (expression rest)) }
{
    let mut bindings = Items::new(alloc);
    bindings.push(Binding::Value(value))?;
    Ok(Expression::Block(bindings, Node::new(alloc, place, rest)?))
}

/// The functions of a group, of which the first one is the value.
#[tactic(auto, unfolding(core_ir::specs::View::expression, core_ir::specs::View::binding))]
pub fn first_function(alloc: Global, place: Place, number: u32) -> Result<Expression, Memory>
    ensures { IfOk result (λ made. expression made ≡ tree.Functions number (tree.Name 0)) }
{
    let mut bindings = Items::new(alloc);
    bindings.push(Binding::Functions(number))?;
    let first = Node::new(alloc, place, Expression::Name(0))?;
    Ok(Expression::Block(bindings, first))
}

/// `if c a else b`, by what a primitive says of operands.
#[tactic(auto, unfolding(core_ir::specs::View::expression, core_ir::specs::View::goal))]
pub fn choice(
    alloc: Global,
    place: Place,
    what: Primitive,
    operand: Expression,
    first: Expression,
    second: Expression,
) -> Result<Expression, Memory>
    ensures { IfOk result (λ made. expression made ≡ tree.Do (tree.Choose what (expression first) (expression second)) (scopes.one (expression operand))) }
{
    let choice = Goal::Choose(
        Shared::new(alloc, what)?,
        Node::new(alloc, place, first)?,
        Node::new(alloc, place, second)?,
    );
    Ok(Expression::Do(choice, one(alloc, operand)?))
}
