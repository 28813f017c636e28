//! What actions are.
ghost use Rattle.std.specs.Prelude.{◌≡◌, IfOk};
ghost use Rattle.core_ir.specs.Expressions as tree;
ghost use Rattle.core_ir.specs.View.{goal};
ghost use Rattle.elaboration.specs.Elaboration as elaboration;

use crate::copies::{operation_again, types_again};
use crate::words::unwrapping;
use core_ir::{Goal, Primitive, Shared, Signature};
use core_scopes::Scope;
use mo_num::Memory;
use mo_syntax::Place;
use std::alloc::Global;
use typed_tree::Action;

// The primitive.
#[tactic(auto, unfolding(core_ir::specs::View::goal))]
fn primitive(alloc: Global, what: Primitive) -> Result<Goal, Memory>
    ensures { IfOk result (λ made. goal made ≡ tree.Operate what) }
{
    Ok(Goal::Operate(Shared::new(alloc, what)?))
}

/// What is done with the values of the operands of an action. A built-in function is none.
#[tactic(auto, unfolding(core_ir::specs::View::goal))]
pub fn goal_of(alloc: Global, place: Place, action: &Action, scope: &Scope) -> Result<Goal, Memory>
    ensures { IfOk result (λ made. goal made ≡ elaboration.goal_of scope.now action.now) }
{
    match action {
        Action::Operate(operation) => {
            primitive(
                alloc,
                Primitive::Operate(operation_again(alloc, operation)?),
            )
        }
        Action::BuiltIn(_) => primitive(alloc, Primitive::Copy),
        Action::New => primitive(alloc, Primitive::New),
        Action::Read => primitive(alloc, Primitive::Read),
        Action::Write => primitive(alloc, Primitive::Write),
        Action::WriteElement => primitive(alloc, Primitive::WriteElement),
        Action::Print => primitive(alloc, Primitive::Print),
        Action::Throw => Ok(Goal::Throw),
        Action::Call => Ok(Goal::Call),
        Action::Send(parameters, results) => {
            let signature = Signature {
                parameters: types_again(alloc, parameters)?,
                results: types_again(alloc, results)?,
            };
            Ok(Goal::Send(Shared::new(alloc, signature)?))
        }
        Action::Await => Ok(Goal::Await),
        Action::Break(label) => Ok(scope.leaving(*label)),
        Action::Unwrap(label) => unwrapping(alloc, place, scope.leaving(*label)),
    }
}
