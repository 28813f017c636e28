//! Operators on operands that are written out.
ghost use Rattle.std.specs.Prelude.{◌≡◌, ◌∷◌, [], IfOk};
ghost use Rattle.kernel_nodes.specs.Made.{operates_at};
ghost use Rattle.kernel_operators.specs.Operations.{binary_in, both_in, choice_of, either_in, negated_in};

use crate::heads::number_kind;
use crate::operations::relation;
use kernel_nodes::{at, flag, one, operates, two};
use kernel_types::KernelTypes;
use mo_num::Memory;
use mo_syntax::BinaryOperator;
use mo_values::Operation;
use std::alloc::Global;
use type_terms::TermId;
use typed_tree::{Form, TypedExpression};

/// What the first operand has to be so that the second is not looked at.
fn choice(operator: BinaryOperator) -> Option<bool>
    ensures { result ≡ choice_of operator }
{
    match operator {
        BinaryOperator::Or => Some(true),
        BinaryOperator::And => Some(false),
        _ => None,
    }
}

/// `a or b`
fn either(
    alloc: Global,
    types: &KernelTypes,
    kind: TermId,
    a: TypedExpression,
    b: TypedExpression,
) -> Result<TypedExpression, Memory>
    ensures { IfOk result (λ made. made ≡ either_in types.now kind a b) }
{
    let truth = flag(alloc, types, true)?;
    at(alloc, types, kind, Form::If(a, truth, b))
}

/// `a and b`
fn both(
    alloc: Global,
    types: &KernelTypes,
    kind: TermId,
    a: TypedExpression,
    b: TypedExpression,
) -> Result<TypedExpression, Memory>
    ensures { IfOk result (λ made. made ≡ both_in types.now kind a b) }
{
    let falsehood = flag(alloc, types, false)?;
    at(alloc, types, kind, Form::If(a, b, falsehood))
}

fn pair(
    alloc: Global,
    types: &KernelTypes,
    kind: TermId,
    operation: Operation,
    a: TypedExpression,
    b: TypedExpression,
) -> Result<TypedExpression, Memory>
    ensures { IfOk result (λ made. made ≡ operates_at types.now kind operation (a ∷ b ∷ [])) }
{
    let operands = two(alloc, a, b)?;
    operates(alloc, types, kind, operation, operands)
}

/// `a op b`, by the type that it gives and that of its operands: Motoko language manual, section "Binary operators". `and` and `or`
/// look at the second operand only where they have to.
pub fn binary(
    alloc: Global,
    types: &KernelTypes,
    operator: BinaryOperator,
    kind: TermId,
    operands: TermId,
    a: TypedExpression,
    b: TypedExpression,
) -> Result<TypedExpression, Memory>
    ensures { IfOk result (λ made. made ≡ binary_in types.now operator kind operands a b) }
{
    match choice(operator) {
        Some(true) => either(alloc, types, kind, a, b),
        Some(false) => both(alloc, types, kind, a, b),
        None => {
            let operation = relation(types, operator, kind, operands)?;
            pair(alloc, types, kind, operation, a, b)
        }
    }
}

/// `- a`
pub fn negative(
    alloc: Global,
    types: &KernelTypes,
    kind: TermId,
    a: TypedExpression,
) -> Result<TypedExpression, Memory>
    ensures { IfOk result (λ made. made ≡ negated_in types.now kind a) }
{
    let of = number_kind(types, kind)?;
    let operands = one(alloc, a)?;
    operates(alloc, types, kind, Operation::Negate(of), operands)
}
