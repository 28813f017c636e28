//! Arithmetic that wraps.
ghost use Rattle.std.specs.Prelude.{◌≡◌, ◌+ℤ◌, ◌-ℤ◌, ◌*ℤ◌};
ghost use Rattle.mo_num.specs.Kinds.{InRange, IsFixed};
ghost use Rattle.mo_num.specs.Arith.{IsWrapped};

use crate::Kind;

/// The sum, wrapped to the kind's width. The kind is of fixed width, and the operands are its values.
pub fn add_wrap(a: i128, b: i128, kind: Kind) -> i128
    requires fixed { IsFixed kind }
    requires left { InRange kind a }
    requires right { InRange kind b }
    ensures { IsWrapped kind (a +ℤ b) result }
{
    wrapped(a + b, kind)
}

/// The difference, wrapped to the kind's width. The kind is of fixed width, and the operands are its values.
pub fn sub_wrap(a: i128, b: i128, kind: Kind) -> i128
    requires fixed { IsFixed kind }
    requires left { InRange kind a }
    requires right { InRange kind b }
    ensures { IsWrapped kind (a -ℤ b) result }
{
    wrapped(a - b, kind)
}

/// The product, wrapped to the kind's width. The kind is of fixed width, and the operands are its values.
pub fn mul_wrap(a: i128, b: i128, kind: Kind) -> i128
    requires fixed { IsFixed kind }
    requires left { InRange kind a }
    requires right { InRange kind b }
    ensures { IsWrapped kind (a *ℤ b) result }
{
    wrapped(a.wrapping_mul(b), kind)
}

fn wrapped(n: i128, kind: Kind) -> i128
    ensures { IsWrapped kind n result }
{
    let low = n.rem_euclid(kind.modulus());
    if kind.greatest() < low {
        low - kind.modulus()
    } else {
        low
    }
}
