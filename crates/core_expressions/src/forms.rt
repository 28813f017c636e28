//! An expression, by the elaboration of its parts.
ghost use Rattle.std.specs.Prelude.{◌≡◌, length, IfOk, OnOk};
ghost use Rattle.typed_tree.specs.View.{expression};
ghost use Rattle.elaboration.specs.Elaboration.{elaborate};
ghost use Rattle.core_parts.specs.Elaborates.{Elaborates};
ghost use Rattle.core_parts.specs.Making.{IsMade};

use core_blocks::block;
use core_calls::act;
use core_cases::switch;
use core_forms::constant;
use core_loops::{attempt, choose, endless, for_each, label, repeat, update, while_loop};
use core_parts::{Groups, Made, Part, Parts};
use core_scopes::Scope;
use typed_tree::{Form, TypedExpression};

/// An expression of any form: Motoko language manual, section "Expressions".
pub(crate) fn by_form<F: Fn(&mut Scope, &mut Groups, Part<'_>) -> Made>(
    parts: &Parts<F>,
    scope: &mut Scope,
    groups: &mut Groups,
    typed: &TypedExpression,
) -> Made
    requires { Elaborates parts.now.depth (F.pre parts.now.elaborate) (F.post parts.now.elaborate) }
    ensures made { IfOk result (λ made. IsMade (elaborate scope.old (length groups.old) (expression typed.now)) groups.old groups.new made) }
    ensures scope { OnOk result (scope.new ≡ scope.old) }
{
    let place = typed.form.place();
    match typed.form.get() {
        Form::Constant(literal) => constant(parts.alloc, literal),
        Form::Name(index) => scope.read_name(*index),
        Form::Do(action, operands) => act(parts, scope, groups, place, action, operands.as_slice()),
        Form::If(condition, first, second) => {
            choose(parts, scope, groups, place, condition, first, second)
        }
        Form::Switch(_token, of, cases) => switch(
            parts,
            scope,
            groups,
            place,
            of,
            cases.as_slice(),
        ),
        Form::While(condition, body) => while_loop(parts, scope, groups, place, condition, body),
        Form::Loop(body) => endless(parts, scope, groups, place, body),
        Form::Repeat(body, condition) => repeat(parts, scope, groups, place, body, condition),
        Form::For(element, of, body) => for_each(parts, scope, groups, place, element, of, body),
        Form::Label(body) => label(parts, scope, groups, place, body),
        Form::Try(body, error, handler) => {
            attempt(parts, scope, groups, place, body, error, handler)
        }
        Form::Update(operation, target, operand) => {
            update(parts, scope, groups, place, operation, target, operand)
        }
        Form::Block(steps, value) => { block(parts, scope, groups, place, steps.as_slice(), value) }
    }
}
