//! Arithmetic that gives the exact result or a trap.
ghost use Rattle.std.specs.Prelude.{◌≡◌};
ghost use Rattle.mo_num.specs.Kinds.{InRange};
ghost use Rattle.mo_num.specs.Arith.{Arith, Negation, within, below};

use crate::{Kind, NumTrap, Operator, pow};

/// The operator's exact result at the kind, or its trap. The operands are values of the kind.
pub fn calculate(operator: Operator, a: i128, b: i128, kind: Kind) -> Result<i128, NumTrap>
    requires left { InRange kind a }
    requires right { InRange kind b }
    ensures { result ≡ Arith operator kind a b }
{
    match operator {
        Operator::Add => add(a, b, kind),
        Operator::Sub => sub(a, b, kind),
        Operator::Mul => mul(a, b, kind),
        Operator::Div => div(a, b, kind),
        Operator::Rem => rem(a, b, kind),
        Operator::Pow => pow(a, b, kind),
    }
}

/// The sum, or `Overflow` where it is outside the kind's range. The operands are values of the kind.
pub fn add(a: i128, b: i128, kind: Kind) -> Result<i128, NumTrap>
    requires left { InRange kind a }
    requires right { InRange kind b }
    ensures { result ≡ Arith Operator.Add kind a b }
{
    bounded(a + b, kind, NumTrap::Overflow)
}

/// The difference; where it is outside the kind's range `Underflow` at `Nat`, and `Overflow` at the other kinds.
/// The operands are values of the kind.
pub fn sub(a: i128, b: i128, kind: Kind) -> Result<i128, NumTrap>
    requires left { InRange kind a }
    requires right { InRange kind b }
    ensures { result ≡ Arith Operator.Sub kind a b }
{
    bounded(a - b, kind, difference_trap(kind))
}

/// The product, or `Overflow` where it is outside the kind's range. The operands are values of the kind.
pub fn mul(a: i128, b: i128, kind: Kind) -> Result<i128, NumTrap>
    requires left { InRange kind a }
    requires right { InRange kind b }
    ensures { result ≡ Arith Operator.Mul kind a b }
{
    match a.checked_mul(b) {
        Some(product) => bounded(product, kind, NumTrap::Overflow),
        None => Err(NumTrap::Overflow),
    }
}

/// The quotient, rounded toward zero; `DivideByZero` where the divisor is 0, and `Overflow` where the quotient is
/// outside the kind's range. The operands are values of the kind.
pub fn div(a: i128, b: i128, kind: Kind) -> Result<i128, NumTrap>
    requires left { InRange kind a }
    requires right { InRange kind b }
    ensures { result ≡ Arith Operator.Div kind a b }
{
    if b == 0 {
        return Err(NumTrap::DivideByZero);
    }
    bounded(a / b, kind, NumTrap::Overflow)
}

/// The remainder, with the dividend's sign; `DivideByZero` where the divisor is 0. The operands are values of the kind.
pub fn rem(a: i128, b: i128, kind: Kind) -> Result<i128, NumTrap>
    requires left { InRange kind a }
    requires right { InRange kind b }
    ensures { result ≡ Arith Operator.Rem kind a b }
{
    if b == 0 {
        return Err(NumTrap::DivideByZero);
    }
    bounded(a % b, kind, NumTrap::Overflow)
}

/// The number with the other sign, or `Overflow` where that is outside the kind's range. The operand is a value of the
/// kind.
pub fn neg(a: i128, kind: Kind) -> Result<i128, NumTrap>
    requires { InRange kind a }
    ensures { result ≡ Negation kind a }
{
    bounded(-a, kind, NumTrap::Overflow)
}

/// The number, or the trap where the kind has it not.
pub(crate) fn bounded(n: i128, kind: Kind, trap: NumTrap) -> Result<i128, NumTrap>
    ensures { result ≡ within kind trap n }
{
    if kind.least() <= n && n <= kind.greatest() {
        Ok(n)
    } else {
        Err(trap)
    }
}

fn difference_trap(kind: Kind) -> NumTrap
    ensures { result ≡ below kind }
{
    match kind {
        Kind::Nat => NumTrap::Underflow,
        _ => NumTrap::Overflow,
    }
}
