//! Actions.
ghost use Rattle.std.specs.Prelude.{◌≡◌, length, map, IfOk, OnOk};
ghost use Rattle.typed_tree.specs.Language as source;
ghost use Rattle.typed_tree.specs.View as view;
ghost use Rattle.typed_tree.specs.View.{expression};
ghost use Rattle.typed_tree.specs.declared.action.Action.TheVariants as actions;
ghost use Rattle.core_ir.specs.View.{goal};
ghost use Rattle.elaboration.specs.Elaboration as elaboration;
ghost use Rattle.core_parts.specs.Elaborates.{Elaborates};
ghost use Rattle.core_parts.specs.Making.{AreMade, IsMade};
ghost use Rattle.core_calls.specs.Calling.{called_at_once, plain};

use crate::callee::{MemberCall, member_call};
use core_forms::goal_of;
use core_ir::{Expression, Goal};
use core_members::{called, value_of};
use core_parts::{Groups, Made, Part, Parts, done};
use core_scopes::Scope;
use mo_num::Memory;
use mo_syntax::Place;
use typed_tree::{Action, Member, TypedExpression};

/// An action with its operands.
pub fn act<F: Fn(&mut Scope, &mut Groups, Part<'_>) -> Made>(
    parts: &Parts<F>,
    scope: &mut Scope,
    groups: &mut Groups,
    place: Place,
    action: &Action,
    typed: &[TypedExpression],
) -> Made
    requires { Elaborates parts.now.depth (F.pre parts.now.elaborate) (F.post parts.now.elaborate) }
    ensures made { IfOk result (λ made. IsMade (elaboration.elaborate scope.old (length groups.old) (source.Do action.now (view.exps (map expression typed.now)))) groups.old groups.new made) }
    ensures scope { OnOk result (scope.new ≡ scope.old) }
{
    match action {
        Action::BuiltIn(member) => member_value(parts, scope, groups, place, *member, typed),
        Action::Call => call(parts, scope, groups, place, typed),
        _ => {
            let what = goal_of(parts.alloc, place, action, scope)?;
            plainly(parts, scope, groups, what, typed)
        }
    }
}

// What is done with the values of operands.
fn plainly<F: Fn(&mut Scope, &mut Groups, Part<'_>) -> Made>(
    parts: &Parts<F>,
    scope: &mut Scope,
    groups: &mut Groups,
    what: Goal,
    typed: &[TypedExpression],
) -> Made
    requires { Elaborates parts.now.depth (F.pre parts.now.elaborate) (F.post parts.now.elaborate) }
    ensures made { IfOk result (λ made. IsMade (plain (goal what) (elaboration.elaborate_operands scope.old (length groups.old) (view.exps (map expression typed.now)))) groups.old groups.new made) }
    ensures scope { OnOk result (scope.new ≡ scope.old) }
{
    let operands = parts.operands(scope, groups, typed)?;
    let made = done(parts.alloc, what, operands)?;
    Ok(made)
}

// A call.
fn call<F: Fn(&mut Scope, &mut Groups, Part<'_>) -> Made>(
    parts: &Parts<F>,
    scope: &mut Scope,
    groups: &mut Groups,
    place: Place,
    typed: &[TypedExpression],
) -> Made
    requires { Elaborates parts.now.depth (F.pre parts.now.elaborate) (F.post parts.now.elaborate) }
    ensures made { IfOk result (λ made. IsMade (elaboration.elaborate scope.old (length groups.old) (source.Do actions.Call (view.exps (map expression typed.now)))) groups.old groups.new made) }
    ensures scope { OnOk result (scope.new ≡ scope.old) }
{
    match member_call(typed) {
        Some(
            MemberCall {
                member,
                holds,
                arguments,
            },
        ) => at_once(parts, scope, groups, place, member, holds, arguments),
        None => plainly(parts, scope, groups, Goal::Call, typed),
    }
}

// A call of a built-in function.
fn at_once<F: Fn(&mut Scope, &mut Groups, Part<'_>) -> Made>(
    parts: &Parts<F>,
    scope: &mut Scope,
    groups: &mut Groups,
    place: Place,
    member: Member,
    holds: &[TypedExpression],
    arguments: &[TypedExpression],
) -> Made
    requires { Elaborates parts.now.depth (F.pre parts.now.elaborate) (F.post parts.now.elaborate) }
    ensures made { IfOk result (λ made. IsMade (elaboration.elaborate scope.old (length groups.old) (source.Do actions.Call (called_at_once member (view.exps (map expression holds.now)) (view.exps (map expression arguments.now))))) groups.old groups.new made) }
    ensures scope { OnOk result (scope.new ≡ scope.old) }
{
    let holds = parts.operands(scope, groups, holds)?;
    let arguments = parts.operands(scope, groups, arguments)?;
    let made = called(
        parts.alloc,
        place,
        member,
        holds,
        arguments,
        scope.names(),
        groups,
    )?;
    Ok(made)
}

// A built-in function as a value.
fn member_value<F: Fn(&mut Scope, &mut Groups, Part<'_>) -> Made>(
    parts: &Parts<F>,
    scope: &mut Scope,
    groups: &mut Groups,
    place: Place,
    member: Member,
    typed: &[TypedExpression],
) -> Made
    requires { Elaborates parts.now.depth (F.pre parts.now.elaborate) (F.post parts.now.elaborate) }
    ensures made { IfOk result (λ made. IsMade (elaboration.elaborate scope.old (length groups.old) (source.Do (actions.BuiltIn member) (view.exps (map expression typed.now)))) groups.old groups.new made) }
    ensures scope { OnOk result (scope.new ≡ scope.old) }
{
    let holds = named_operands(parts, scope, groups, typed)?;
    let made = value_of(parts.alloc, place, member, holds, scope.names(), groups)?;
    Ok(made)
}

// Operands from left to right, each a name in those behind it.
fn named_operands<F: Fn(&mut Scope, &mut Groups, Part<'_>) -> Made>(
    parts: &Parts<F>,
    scope: &mut Scope,
    groups: &mut Groups,
    typed: &[TypedExpression],
) -> Result<Vec<Expression>, Memory>
    requires { Elaborates parts.now.depth (F.pre parts.now.elaborate) (F.post parts.now.elaborate) }
    ensures made { IfOk result (λ made. AreMade (elaboration.elaborate_names scope.old (length groups.old) (view.exps (map expression typed.now))) groups.old groups.new made.items) }
    ensures scope { OnOk result (scope.new ≡ scope.old) }
{
    let mark = scope.mark();
    let mut made = Vec::new(parts.alloc);
    for operand in typed {
        let value = parts.part(scope, groups, operand)?;
        made.push(value)?;
        scope.go_beside(1)?;
    }
    scope.back(mark);
    Ok(made)
}
