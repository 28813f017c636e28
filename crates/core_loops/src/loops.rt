//! Branches, loops, labels, errors and updates.
ghost use Rattle.std.specs.Prelude.{◌≡◌, true, length, IfOk, OnOk};
ghost use Rattle.typed_tree.specs.Language as source;
ghost use Rattle.typed_tree.specs.PatternView.{pattern};
ghost use Rattle.typed_tree.specs.View as view;
ghost use Rattle.typed_tree.specs.View.{expression};
ghost use Rattle.core_ir.specs.Expressions as tree;
ghost use Rattle.core_ir.specs.View.{expression as core_expression};
ghost use Rattle.elaboration.specs.Checks as checks;
ghost use Rattle.elaboration.specs.Elaboration as elaboration;
ghost use Rattle.elaboration.specs.Members as members;
ghost use Rattle.elaboration.specs.Scopes as scopes;
ghost use Rattle.core_layers.specs.Layers.{layered};
ghost use Rattle.core_loops.specs.Shapes as shapes;
ghost use Rattle.core_parts.specs.Elaborates.{Elaborates};
ghost use Rattle.core_parts.specs.Making.{IsMade};

use crate::truths::holds;
use core_forms::{
    bind_nearest, break_with, element, if_true, labelled, looped, operation_again, repeated, tried,
    updated,
};
use core_ir::Expression;
use core_layers::{Fails, Layer, around, let_in, operation, unit};
use core_parts::{Groups, Made, Part, Parts};
use core_scopes::Scope;
use mo_num::{Bytes, Memory};
use mo_syntax::{Items, Place};
use mo_values::Operation;
use std::alloc::Global;
use typed_tree::{TypedExpression, TypedPattern};

// Turns that end where the condition is false.
fn while_true(alloc: Global, place: Place, condition: Expression, body: Expression) -> Made
    ensures { IfOk result (λ made. core_expression made ≡ elaboration.tested_loop (core_expression condition) (core_expression body)) }
{
    let ends = break_with(alloc, unit(alloc)?)?;
    let test = if_true(alloc, place, condition, unit(alloc)?, ends)?;
    looped(alloc, place, let_in(alloc, place, test, body)?)
}

// Turns without end, behind a name without use.
fn without_end(alloc: Global, place: Place, body: Expression) -> Made
    ensures { IfOk result (λ made. core_expression made ≡ tree.Loop (members.let_in scopes.nothing (core_expression body))) }
{
    repeated(alloc, place, let_in(alloc, place, unit(alloc)?, body)?)
}

// Turns that end where the condition behind them is false.
fn again_while(alloc: Global, place: Place, body: Expression, condition: Expression) -> Made
    ensures { IfOk result (λ made. core_expression made ≡ tree.Label (tree.Loop (members.let_in (core_expression body) (elaboration.if_true (core_expression condition) scopes.nothing (elaboration.break_with scopes.nothing))))) }
{
    let ends = break_with(alloc, unit(alloc)?)?;
    let again = if_true(alloc, place, condition, unit(alloc)?, ends)?;
    looped(alloc, place, let_in(alloc, place, body, again)?)
}

// Turns over what an object gives, each behind these checks.
fn each_element(
    alloc: Global,
    place: Place,
    of: Expression,
    layers: Vec<Layer>,
    body: Expression,
) -> Made
    ensures { IfOk result (λ made. core_expression made ≡ members.let_in (core_expression of) (tree.Label (tree.Loop (shapes.turn (layered layers.items checks.fails (core_expression body)))))) }
{
    let body = around(alloc, place, layers, Fails::Traps, body)?;
    let turn = let_in(alloc, place, element(alloc, place)?, body)?;
    let turns = looped(alloc, place, turn)?;
    let_in(alloc, place, of, turns)
}

// A handler behind these checks.
fn caught(
    alloc: Global,
    place: Place,
    body: Expression,
    layers: Vec<Layer>,
    handler: Expression,
) -> Made
    ensures { IfOk result (λ made. core_expression made ≡ tree.Try (core_expression body) (layered layers.items checks.fails (core_expression handler))) }
{
    let handler = around(alloc, place, layers, Fails::Traps, handler)?;
    tried(alloc, place, body, handler)
}

// A place that is read, and then written.
fn written(
    alloc: Global,
    place: Place,
    operation: &Operation,
    target: Expression,
    operand: Expression,
) -> Made
    ensures { IfOk result (λ made. core_expression made ≡ members.let_in (core_expression target) (shapes.written operation.now (core_expression operand))) }
{
    let written = updated(alloc, operation_again(alloc, operation)?, operand)?;
    let_in(alloc, place, target, written)
}

/// `if c a else b`
pub fn choose<F: Fn(&mut Scope, &mut Groups, Part<'_>) -> Made>(
    parts: &Parts<F>,
    scope: &mut Scope,
    groups: &mut Groups,
    place: Place,
    condition: &TypedExpression,
    first: &TypedExpression,
    second: &TypedExpression,
) -> Made
    requires { Elaborates parts.now.depth (F.pre parts.now.elaborate) (F.post parts.now.elaborate) }
    ensures made { IfOk result (λ made. IsMade (elaboration.elaborate scope.old (length groups.old) (source.If (expression condition.now) (expression first.now) (expression second.now))) groups.old groups.new made) }
    ensures scope { OnOk result (scope.new ≡ scope.old) }
{
    let alloc = parts.alloc;
    let condition = parts.part(scope, groups, condition)?;
    let first = parts.part(scope, groups, first)?;
    let second = parts.part(scope, groups, second)?;
    if_true(alloc, place, condition, first, second)
}

/// `while c b`
pub fn while_loop<F: Fn(&mut Scope, &mut Groups, Part<'_>) -> Made>(
    parts: &Parts<F>,
    scope: &mut Scope,
    groups: &mut Groups,
    place: Place,
    condition: &TypedExpression,
    body: &TypedExpression,
) -> Made
    requires { Elaborates parts.now.depth (F.pre parts.now.elaborate) (F.post parts.now.elaborate) }
    ensures made { IfOk result (λ made. IsMade (elaboration.elaborate scope.old (length groups.old) (source.While (expression condition.now) (expression body.now))) groups.old groups.new made) }
    ensures scope { OnOk result (scope.new ≡ scope.old) }
{
    if holds(condition) {
        return turns(parts, scope, groups, place, body);
    }
    let mark = scope.mark();
    scope.go_inside()?;
    let condition = parts.part(scope, groups, condition)?;
    scope.go_beside(1)?;
    let body = parts.part(scope, groups, body)?;
    scope.back(mark);
    while_true(parts.alloc, place, condition, body)
}

// Turns without end.
fn turns<F: Fn(&mut Scope, &mut Groups, Part<'_>) -> Made>(
    parts: &Parts<F>,
    scope: &mut Scope,
    groups: &mut Groups,
    place: Place,
    body: &TypedExpression,
) -> Made
    requires { Elaborates parts.now.depth (F.pre parts.now.elaborate) (F.post parts.now.elaborate) }
    ensures made { IfOk result (λ made. IsMade (shapes.turns scope.old (length groups.old) (expression body.now)) groups.old groups.new made) }
    ensures scope { OnOk result (scope.new ≡ scope.old) }
{
    let mark = scope.mark();
    scope.go_beside(1)?;
    let body = parts.part(scope, groups, body)?;
    scope.back(mark);
    without_end(parts.alloc, place, body)
}

/// `loop b`: a loop whose end is not reached, in the place of an expression of any type.
pub fn endless<F: Fn(&mut Scope, &mut Groups, Part<'_>) -> Made>(
    parts: &Parts<F>,
    scope: &mut Scope,
    groups: &mut Groups,
    place: Place,
    body: &TypedExpression,
) -> Made
    requires { Elaborates parts.now.depth (F.pre parts.now.elaborate) (F.post parts.now.elaborate) }
    ensures made { IfOk result (λ made. IsMade (elaboration.elaborate scope.old (length groups.old) (view.endless (expression body.now))) groups.old groups.new made) }
    ensures scope { OnOk result (scope.new ≡ scope.old) }
{
    let turns = turns(parts, scope, groups, place, body)?;
    behind_turns(parts.alloc, place, turns)
}

// What stands behind turns without end is not reached.
fn behind_turns(alloc: Global, place: Place, turns: Expression) -> Made
    ensures { IfOk result (λ made. core_expression made ≡ members.let_in (core_expression turns) shapes.unreached) }
{
    let_in(alloc, place, turns, unreached(alloc)?)
}

/// `loop b while c`
pub fn repeat<F: Fn(&mut Scope, &mut Groups, Part<'_>) -> Made>(
    parts: &Parts<F>,
    scope: &mut Scope,
    groups: &mut Groups,
    place: Place,
    body: &TypedExpression,
    condition: &TypedExpression,
) -> Made
    requires { Elaborates parts.now.depth (F.pre parts.now.elaborate) (F.post parts.now.elaborate) }
    ensures made { IfOk result (λ made. IsMade (elaboration.elaborate scope.old (length groups.old) (source.Repeat (expression body.now) (expression condition.now))) groups.old groups.new made) }
    ensures scope { OnOk result (scope.new ≡ scope.old) }
{
    let mark = scope.mark();
    scope.go_inside()?;
    let body = parts.part(scope, groups, body)?;
    scope.go_beside(1)?;
    let condition = parts.part(scope, groups, condition)?;
    scope.back(mark);
    again_while(parts.alloc, place, body, condition)
}

/// `for (p in e) b`: the object is a name around the loop, and the element is the nearest one in its body.
pub fn for_each<F: Fn(&mut Scope, &mut Groups, Part<'_>) -> Made>(
    parts: &Parts<F>,
    scope: &mut Scope,
    groups: &mut Groups,
    place: Place,
    element: &TypedPattern,
    of: &TypedExpression,
    body: &TypedExpression,
) -> Made
    requires { Elaborates parts.now.depth (F.pre parts.now.elaborate) (F.post parts.now.elaborate) }
    ensures made { IfOk result (λ made. IsMade (elaboration.elaborate scope.old (length groups.old) (source.For (pattern element.now) (expression of.now) (expression body.now))) groups.old groups.new made) }
    ensures scope { OnOk result (scope.new ≡ scope.old) }
{
    let alloc = parts.alloc;
    let of = parts.part(scope, groups, of)?;
    let mark = scope.mark();
    scope.go_beside(1)?;
    let checks = bind_nearest(alloc, element, Vec::new(alloc), scope)?;
    scope.go_inside()?;
    let body = parts.part(scope, groups, body)?;
    scope.back(mark);
    each_element(alloc, place, of, checks, body)
}

/// What a break leaves.
pub fn label<F: Fn(&mut Scope, &mut Groups, Part<'_>) -> Made>(
    parts: &Parts<F>,
    scope: &mut Scope,
    groups: &mut Groups,
    place: Place,
    body: &TypedExpression,
) -> Made
    requires { Elaborates parts.now.depth (F.pre parts.now.elaborate) (F.post parts.now.elaborate) }
    ensures made { IfOk result (λ made. IsMade (elaboration.elaborate scope.old (length groups.old) (source.Label (expression body.now))) groups.old groups.new made) }
    ensures scope { OnOk result (scope.new ≡ scope.old) }
{
    let alloc = parts.alloc;
    let mark = scope.mark();
    scope.add_label()?;
    let body = parts.part(scope, groups, body)?;
    scope.back(mark);
    labelled(alloc, place, body)
}

/// `try a catch p b`
pub fn attempt<F: Fn(&mut Scope, &mut Groups, Part<'_>) -> Made>(
    parts: &Parts<F>,
    scope: &mut Scope,
    groups: &mut Groups,
    place: Place,
    body: &TypedExpression,
    error: &TypedPattern,
    handler: &TypedExpression,
) -> Made
    requires { Elaborates parts.now.depth (F.pre parts.now.elaborate) (F.post parts.now.elaborate) }
    ensures made { IfOk result (λ made. IsMade (elaboration.elaborate scope.old (length groups.old) (source.Try (expression body.now) (pattern error.now) (expression handler.now))) groups.old groups.new made) }
    ensures scope { OnOk result (scope.new ≡ scope.old) }
{
    let alloc = parts.alloc;
    let body = parts.part(scope, groups, body)?;
    let mark = scope.mark();
    let checks = bind_nearest(alloc, error, Vec::new(alloc), scope)?;
    let handler = parts.part(scope, groups, handler)?;
    scope.back(mark);
    caught(alloc, place, body, checks, handler)
}

/// `a := a op b`
pub fn update<F: Fn(&mut Scope, &mut Groups, Part<'_>) -> Made>(
    parts: &Parts<F>,
    scope: &mut Scope,
    groups: &mut Groups,
    place: Place,
    operation: &Operation,
    target: &TypedExpression,
    operand: &TypedExpression,
) -> Made
    requires { Elaborates parts.now.depth (F.pre parts.now.elaborate) (F.post parts.now.elaborate) }
    ensures made { IfOk result (λ made. IsMade (elaboration.elaborate scope.old (length groups.old) (source.Update operation.now (expression target.now) (expression operand.now))) groups.old groups.new made) }
    ensures scope { OnOk result (scope.new ≡ scope.old) }
{
    let target = parts.part(scope, groups, target)?;
    let mark = scope.mark();
    scope.go_beside(1)?;
    let operand = parts.part(scope, groups, operand)?;
    scope.back(mark);
    written(parts.alloc, place, operation, target, operand)
}

// What is not reached.
fn unreached(alloc: Global) -> Result<Expression, Memory>
    ensures { IfOk result (λ made. core_expression made ≡ shapes.unreached) }
{
    operation(alloc, Operation::Fail(Bytes::new(alloc)), Items::new(alloc))
}
