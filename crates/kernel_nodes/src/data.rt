//! What is made of one operand.
ghost use Rattle.std.specs.Prelude.{◌≡◌, ◌∷◌, [], IfOk};
ghost use Rattle.mo_values.specs.declared.operation.Operation.TheVariants as op;
ghost use Rattle.kernel_nodes.specs.Made.{acts_at, evaluate_step, ignored_at, operates_at, widened_at};

use crate::nodes::{acts, at, operates};
use crate::operands::one;
use crate::values::unit_value;
use kernel_types::KernelTypes;
use mo_num::{Bytes, Memory};
use mo_syntax::Items;
use mo_values::Operation;
use std::alloc::Global;
use type_terms::TermId;
use typed_tree::{Action, Form, Step, TypedExpression};

/// What is done with one operand.
pub fn act_on(
    alloc: Global,
    types: &KernelTypes,
    kind: TermId,
    action: Action,
    a: TypedExpression,
) -> Result<TypedExpression, Memory>
    ensures { IfOk result (λ made. made ≡ acts_at types.now kind action (a ∷ [])) }
{
    let operands = one(alloc, a)?;
    acts(alloc, types, kind, action, operands)
}

/// An operation on one operand.
pub fn operate_on(
    alloc: Global,
    types: &KernelTypes,
    kind: TermId,
    operation: Operation,
    a: TypedExpression,
) -> Result<TypedExpression, Memory>
    ensures { IfOk result (λ made. made ≡ operates_at types.now kind operation (a ∷ [])) }
{
    let operands = one(alloc, a)?;
    operates(alloc, types, kind, operation, operands)
}

/// `#x a`
pub fn tagged(
    alloc: Global,
    types: &KernelTypes,
    kind: TermId,
    name: &[u8],
    a: TypedExpression,
) -> Result<TypedExpression, Memory>
    ensures { IfOk result (λ made. made ≡ operates_at types.now kind (op.MakeTag name.now) (a ∷ [])) }
{
    let label = Bytes::from_slice(alloc, name)?;
    operate_on(alloc, types, kind, Operation::MakeTag(label), a)
}

/// The number of a part as the operation has it. No tuple has so many parts that the number is none of 32 bits.
fn part_number(number: u64) -> Result<u32, Memory>
    ensures { IfOk result (λ small. small ≡ number) }
{
    if number <= u32::MAX as u64 {
        Ok(number as u32)
    } else {
        Err(Memory)
    }
}

/// `a.0`, counted from 0.
pub fn project(
    alloc: Global,
    types: &KernelTypes,
    kind: TermId,
    number: u64,
    a: TypedExpression,
) -> Result<TypedExpression, Memory>
    ensures { IfOk result (λ made. made ≡ operates_at types.now kind (op.Project number) (a ∷ [])) }
{
    let part = part_number(number)?;
    operate_on(alloc, types, kind, Operation::Project(part), a)
}

/// An expression at a type above its own.
pub fn widened(
    alloc: Global,
    types: &KernelTypes,
    kind: TermId,
    a: TypedExpression,
) -> Result<TypedExpression, Memory>
    ensures { IfOk result (λ made. made ≡ widened_at types.now kind a) }
{
    at(alloc, types, kind, Form::Block(Items::new(alloc), a))
}

fn evaluated(alloc: Global, a: TypedExpression) -> Result<Items<Step>, Memory>
    ensures { IfOk result (λ made. made ≡ evaluate_step a ∷ []) }
{
    let mut steps = Items::new(alloc);
    steps.push(Step::Evaluate(a))?;
    Ok(steps)
}

/// An expression whose value is not looked at.
pub fn ignored(
    alloc: Global,
    types: &KernelTypes,
    kind: TermId,
    a: TypedExpression,
) -> Result<TypedExpression, Memory>
    ensures { IfOk result (λ made. made ≡ ignored_at types.now kind a) }
{
    let steps = evaluated(alloc, a)?;
    let value = unit_value(alloc, types)?;
    at(alloc, types, kind, Form::Block(steps, value))
}
