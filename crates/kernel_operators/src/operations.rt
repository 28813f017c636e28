//! The operations that operators are.
ghost use Rattle.std.specs.Prelude.{◌≡◌, IfOk};
ghost use Rattle.mo_values.specs.declared.operation.Operation.TheVariants as op;
ghost use Rattle.desugaring.specs.Nodes as nodes;
ghost use Rattle.kernel_types.specs.Numbers.{head_of};
ghost use Rattle.kernel_operators.specs.Operations.{kind_in, operation_in, relation_in};

use crate::heads::{number_kind, scalar};
use kernel_types::KernelTypes;
use mo_num::{Memory, Operator};
use mo_syntax::BinaryOperator;
use mo_values::{Comparison, Operation, Wrapping};
use type_terms::TermId;

fn arithmetic(types: &KernelTypes, sign: Operator, kind: TermId) -> Result<Operation, Memory>
    ensures { IfOk result (λ made. made ≡ op.Arithmetic sign (kind_in types.now kind)) }
{
    let of = number_kind(types, kind)?;
    Ok(Operation::Arithmetic(sign, of))
}

fn wrapping(types: &KernelTypes, sign: Wrapping, kind: TermId) -> Result<Operation, Memory>
    ensures { IfOk result (λ made. made ≡ op.Wrap sign (kind_in types.now kind)) }
{
    let of = number_kind(types, kind)?;
    Ok(Operation::Wrap(sign, of))
}

/// An operator of numbers or texts, at the type that it gives: Motoko language manual, section "Binary operators".
pub fn operation(
    types: &KernelTypes,
    operator: BinaryOperator,
    kind: TermId,
) -> Result<Operation, Memory>
    ensures { IfOk result (λ made. made ≡ operation_in types.now operator kind) }
{
    match operator {
        BinaryOperator::Subtract => arithmetic(types, Operator::Sub, kind),
        BinaryOperator::Multiply => arithmetic(types, Operator::Mul, kind),
        BinaryOperator::Divide => arithmetic(types, Operator::Div, kind),
        BinaryOperator::Remainder => arithmetic(types, Operator::Rem, kind),
        BinaryOperator::Power => arithmetic(types, Operator::Pow, kind),
        BinaryOperator::AddWrap => wrapping(types, Wrapping::AddWrap, kind),
        BinaryOperator::SubtractWrap => wrapping(types, Wrapping::SubWrap, kind),
        BinaryOperator::MultiplyWrap => wrapping(types, Wrapping::MulWrap, kind),
        BinaryOperator::Concat => Ok(Operation::Concat),
        BinaryOperator::Add
        | BinaryOperator::Or
        | BinaryOperator::And
        | BinaryOperator::Equal
        | BinaryOperator::NotEqual
        | BinaryOperator::Less
        | BinaryOperator::Greater
        | BinaryOperator::LessEqual
        | BinaryOperator::GreaterEqual => arithmetic(types, Operator::Add, kind),
    }
}

fn compare(
    types: &KernelTypes,
    comparison: Comparison,
    operands: TermId,
) -> Result<Operation, Memory>
    ensures { IfOk result (λ made. made ≡ op.Compare comparison (nodes.scalar_of (head_of types.now operands))) }
{
    let of = scalar(types, operands)?;
    Ok(Operation::Compare(comparison, of))
}

/// An operator other than `and` and `or`, by the type that it gives and that of its operands: Motoko language manual, section
/// "Relational operators".
pub(crate) fn relation(
    types: &KernelTypes,
    operator: BinaryOperator,
    kind: TermId,
    operands: TermId,
) -> Result<Operation, Memory>
    ensures { IfOk result (λ made. made ≡ relation_in types.now operator kind operands) }
{
    match operator {
        BinaryOperator::Equal => Ok(Operation::Equal(types.number(operands)?)),
        BinaryOperator::NotEqual => Ok(Operation::Unequal(types.number(operands)?)),
        BinaryOperator::Less => compare(types, Comparison::Less, operands),
        BinaryOperator::Greater => compare(types, Comparison::Greater, operands),
        BinaryOperator::LessEqual => compare(types, Comparison::LessOrEqual, operands),
        BinaryOperator::GreaterEqual => compare(types, Comparison::GreaterOrEqual, operands),
        BinaryOperator::Or
        | BinaryOperator::And
        | BinaryOperator::Add
        | BinaryOperator::Subtract
        | BinaryOperator::Multiply
        | BinaryOperator::Divide
        | BinaryOperator::Remainder
        | BinaryOperator::Power
        | BinaryOperator::AddWrap
        | BinaryOperator::SubtractWrap
        | BinaryOperator::MultiplyWrap
        | BinaryOperator::Concat => operation(types, operator, kind),
    }
}
