//! Nodes at types.
ghost use Rattle.std.specs.Prelude.{◌≡◌, IfOk};
ghost use Rattle.kernel_types.specs.Numbers.{number_of};
ghost use Rattle.kernel_nodes.specs.Made.{acts_at, on, operates_at};

use kernel_types::KernelTypes;
use mo_num::Memory;
use mo_syntax::{Items, Node, Place};
use mo_types::TypeId;
use mo_values::Operation;
use std::alloc::Global;
use type_terms::TermId;
use typed_tree::{Action, Form, TypedExpression};

/// The expression of this form at the type of this number. Where it was written is of no use any more.
pub(crate) fn on_number(
    alloc: Global,
    of_type: TypeId,
    form: Form,
) -> Result<TypedExpression, Memory>
    ensures { IfOk result (λ made. made ≡ on of_type form) }
{
    let place = Place { start: 0, end: 0 };
    Ok(TypedExpression {
        of_type,
        form: Node::new(alloc, place, form)?,
    })
}

/// The expression of this form at a type.
pub fn at(
    alloc: Global,
    types: &KernelTypes,
    kind: TermId,
    form: Form,
) -> Result<TypedExpression, Memory>
    ensures { IfOk result (λ made. made ≡ on (number_of types.now kind) form) }
{
    let number = types.number(kind)?;
    on_number(alloc, number, form)
}

/// What is done with operands, at the type of what it gives.
pub fn acts(
    alloc: Global,
    types: &KernelTypes,
    kind: TermId,
    action: Action,
    operands: Items<TypedExpression>,
) -> Result<TypedExpression, Memory>
    ensures { IfOk result (λ made. made ≡ acts_at types.now kind action operands) }
{
    at(alloc, types, kind, Form::Do(action, operands))
}

/// An operation of the table, at the type of what it gives.
pub fn operates(
    alloc: Global,
    types: &KernelTypes,
    kind: TermId,
    operation: Operation,
    operands: Items<TypedExpression>,
) -> Result<TypedExpression, Memory>
    ensures { IfOk result (λ made. made ≡ operates_at types.now kind operation operands) }
{
    acts(alloc, types, kind, Action::Operate(operation), operands)
}
