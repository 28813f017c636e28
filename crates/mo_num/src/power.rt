//! Powers.
ghost use Rattle.std.specs.Prelude.{◌≡◌};
ghost use Rattle.std.specs.Int.{int_pow};
ghost use Rattle.mo_num.specs.declared.operator.Operator.{Operator};
ghost use Rattle.mo_num.specs.declared.operator.NumTrap.{NumTrap};
ghost use Rattle.mo_num.specs.Kinds.{InRange};
ghost use Rattle.mo_num.specs.Arith.{Arith, within};

use crate::arith::bounded;
use crate::{Kind, NumTrap};

/// The power, or `Overflow` where it is outside the kind's range or the exponent is negative. The operands are values
/// of the kind.
pub fn pow(a: i128, b: i128, kind: Kind) -> Result<i128, NumTrap>
    requires left { InRange kind a }
    requires right { InRange kind b }
    ensures { result ≡ Arith Operator.Pow kind a b }
{
    if b < 0 {
        Err(NumTrap::Overflow)
    } else if b < 128 {
        raised(a, b as u32, kind)
    } else if a < -1 {
        // Its powers have left every range by then.
        Err(NumTrap::Overflow)
    } else if a > 1 {
        Err(NumTrap::Overflow)
    } else {
        // The powers of 0, 1 and -1 repeat with every second exponent.
        raised(a, (2 + b % 2) as u32, kind)
    }
}

// At most eight turns for an exponent below 128.
fn raised(a: i128, exponent: u32, kind: Kind) -> Result<i128, NumTrap>
    ensures { result ≡ within kind NumTrap.Overflow (int_pow a exponent) }
{
    match a.checked_pow(exponent) {
        Some(power) => bounded(power, kind, NumTrap::Overflow),
        None => Err(NumTrap::Overflow),
    }
}
