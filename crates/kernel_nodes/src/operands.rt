//! Few operands.
ghost use Rattle.std.specs.Prelude.{◌≡◌, ◌∷◌, [], IfOk};

use mo_num::Memory;
use mo_syntax::Items;
use std::alloc::Global;
use typed_tree::TypedExpression;

/// One operand.
pub fn one(alloc: Global, a: TypedExpression) -> Result<Items<TypedExpression>, Memory>
    ensures { IfOk result (λ made. made ≡ a ∷ []) }
{
    let mut operands = Items::new(alloc);
    operands.push(a)?;
    Ok(operands)
}

/// Two operands.
pub fn two(
    alloc: Global,
    a: TypedExpression,
    b: TypedExpression,
) -> Result<Items<TypedExpression>, Memory>
    ensures { IfOk result (λ made. made ≡ a ∷ b ∷ []) }
{
    let mut operands = one(alloc, a)?;
    operands.push(b)?;
    Ok(operands)
}

/// Three operands.
pub fn three(
    alloc: Global,
    a: TypedExpression,
    b: TypedExpression,
    c: TypedExpression,
) -> Result<Items<TypedExpression>, Memory>
    ensures { IfOk result (λ made. made ≡ a ∷ b ∷ c ∷ []) }
{
    let mut operands = two(alloc, a, b)?;
    operands.push(c)?;
    Ok(operands)
}
