//! Forms of expressions.
ghost use Rattle.std.specs.Prelude.{◌≡◌, map, IfOk};
ghost use Rattle.typed_tree.specs.PatternView.{literal_value};
ghost use Rattle.core_ir.specs.Expressions as tree;
ghost use Rattle.core_ir.specs.View.{exps, expression, goal};
ghost use Rattle.core_ir.specs.declared.primitive.Primitive.TheVariants as primitive;
ghost use Rattle.elaboration.specs.Elaboration as elaboration;
ghost use Rattle.elaboration.specs.Members as members;
ghost use Rattle.elaboration.specs.Scopes as scopes;

use core_ir::{Constant, Constructor, Expression, Goal, Primitive, Shared};
use core_layers::{choice, does, one, operation, part_of, two, unit};
use mo_num::{Bytes, Memory};
use mo_syntax::{Items, Node, Place};
use mo_types::Datum;
use mo_values::Operation;
use std::alloc::Global;
use typed_tree::Literal;

/// A literal.
#[tactic(auto, unfolding(core_ir::specs::View::expression))]
pub fn constant(alloc: Global, literal: &Literal) -> Result<Expression, Memory>
    ensures { IfOk result (λ made. expression made ≡ elaboration.constant_of (literal_value literal.now)) }
{
    match literal {
        Literal::Unit => unit(alloc),
        _ => Ok(Expression::Constant(Shared::new(
            alloc,
            Constant::Leaf(part_of(alloc, literal)?),
        )?)),
    }
}

/// `if c a else b`
pub fn if_true(
    alloc: Global,
    place: Place,
    condition: Expression,
    first: Expression,
    second: Expression,
) -> Result<Expression, Memory>
    ensures { IfOk result (λ made. expression made ≡ elaboration.if_true (expression condition) (expression first) (expression second)) }
{
    choice(alloc, place, Primitive::Copy, condition, first, second)
}

/// Leaves the nearest label with a value.
#[tactic(auto, unfolding(core_ir::specs::View::expression, core_ir::specs::View::goal))]
pub fn break_with(alloc: Global, value: Expression) -> Result<Expression, Memory>
    ensures { IfOk result (λ made. expression made ≡ elaboration.break_with (expression value)) }
{
    Ok(Expression::Do(Goal::Break(0), one(alloc, value)?))
}

// The nearest name.
#[tactic(auto, unfolding(core_ir::specs::View::expression))]
fn nearest() -> Expression
    ensures { expression result ≡ tree.Name 0 }
{
    Expression::Name(0)
}

/// What a break leaves.
#[tactic(auto, unfolding(core_ir::specs::View::expression))]
pub fn labelled(alloc: Global, place: Place, inner: Expression) -> Result<Expression, Memory>
    ensures { IfOk result (λ made. expression made ≡ tree.Label (expression inner)) }
{
    Ok(Expression::Label(Node::new(alloc, place, inner)?))
}

/// Again and again.
#[tactic(auto, unfolding(core_ir::specs::View::expression))]
pub fn repeated(alloc: Global, place: Place, body: Expression) -> Result<Expression, Memory>
    ensures { IfOk result (λ made. expression made ≡ tree.Loop (expression body)) }
{
    Ok(Expression::Loop(Node::new(alloc, place, body)?))
}

/// Again and again, until a break leaves it.
pub fn looped(alloc: Global, place: Place, body: Expression) -> Result<Expression, Memory>
    ensures { IfOk result (λ made. expression made ≡ tree.Label (tree.Loop (expression body))) }
{
    labelled(alloc, place, repeated(alloc, place, body)?)
}

/// `try a`, where the error is the nearest name in what comes then.
#[tactic(auto, unfolding(core_ir::specs::View::expression))]
pub fn tried(
    alloc: Global,
    place: Place,
    first: Expression,
    handler: Expression,
) -> Result<Expression, Memory>
    ensures { IfOk result (λ made. expression made ≡ tree.Try (expression first) (expression handler)) }
{
    Ok(Expression::Try(
        Node::new(alloc, place, first)?,
        Node::new(alloc, place, handler)?,
    ))
}

/// `e!`, where null leaves by this jump.
#[tactic(auto, unfolding(core_ir::specs::View::expression, core_ir::specs::View::goal))]
pub(crate) fn unwrapping(alloc: Global, place: Place, leave: Goal) -> Result<Goal, Memory>
    ensures { IfOk result (λ made. goal made ≡ elaboration.unwrap (goal leave)) }
{
    let null = Expression::Constant(Shared::new(alloc, Constant::Leaf(Datum::Null))?);
    let leaves = Expression::Do(leave, one(alloc, null)?);
    Ok(Goal::Match(
        Shared::new(alloc, Constructor::Present)?,
        Node::new(alloc, place, Expression::Name(0))?,
        Node::new(alloc, place, leaves)?,
    ))
}

// `next` of the object that is the nearest name, called.
#[tactic(auto, unfolding(core_ir::specs::View::expression, core_ir::specs::View::goal))]
fn next_of(alloc: Global) -> Result<Expression, Memory>
    ensures { IfOk result (λ made. expression made ≡ elaboration.next_of (tree.Name 0)) }
{
    let label = Bytes::from_slice(alloc, b"next")?;
    let next = operation(alloc, Operation::Field(label), one(alloc, nearest())?)?;
    Ok(Expression::Do(Goal::Call, one(alloc, next)?))
}

/// The next element of the object that is the nearest name; where there is none, the nearest label is left.
#[tactic(auto, unfolding(core_ir::specs::View::expression, core_ir::specs::View::goal))]
pub fn element(alloc: Global, place: Place) -> Result<Expression, Memory>
    ensures { IfOk result (λ made. expression made ≡ elaboration.element_of) }
{
    let ends = break_with(alloc, unit(alloc)?)?;
    let called = next_of(alloc)?;
    let matched = Goal::Match(
        Shared::new(alloc, Constructor::Present)?,
        Node::new(alloc, place, nearest())?,
        Node::new(alloc, place, ends)?,
    );
    Ok(Expression::Do(matched, one(alloc, called)?))
}

/// `a := a op b`, where the place is the nearest name.
pub fn updated(alloc: Global, what: Operation, operand: Expression) -> Result<Expression, Memory>
    ensures { IfOk result (λ made. expression made ≡ members.does primitive.Write (scopes.two (tree.Name 0) (members.does (primitive.Operate what) (scopes.two (members.does primitive.Read (scopes.one (tree.Name 0))) (expression operand))))) }
{
    let held = does(alloc, Primitive::Read, one(alloc, nearest())?)?;
    let value = operation(alloc, what, two(alloc, held, operand)?)?;
    does(alloc, Primitive::Write, two(alloc, nearest(), value)?)
}
