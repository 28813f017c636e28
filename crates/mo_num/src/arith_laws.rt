//! Laws of arithmetic. Each function does nothing: its contract is a theorem about the definitions that the operators
//! cite.
ghost use Rattle.std.specs.Prelude.{◌≡◌, ◌<◌, ℤ, pos, ◌+ℤ◌, ◌*ℤ◌, ◌≤ℤ◌, unsigned_abs};
ghost use Rattle.mo_num.specs.declared.kind.Kind.{Kind};
ghost use Rattle.mo_num.specs.declared.operator.Operator.{Operator};
ghost use Rattle.mo_num.specs.Kinds.{InRange};
ghost use Rattle.mo_num.specs.Arith.{Arith, IsWrapped};

/// The quotient times the divisor and the remainder make the dividend; the remainder is smaller than the divisor, and
/// its sign is the dividend's where it is not 0.
pub fn division_law()
    ensures whole { (kind : Kind) (a b q r : ℤ) → Arith Operator.Div kind a b ≡ Ok q → Arith Operator.Rem kind a b ≡ Ok r → a ≡ (q *ℤ b) +ℤ r }
    ensures small { (kind : Kind) (a b r : ℤ) → Arith Operator.Rem kind a b ≡ Ok r → unsigned_abs r < unsigned_abs b }
    ensures positive { (kind : Kind) (a b r : ℤ) → Arith Operator.Rem kind a b ≡ Ok r → pos 0 ≤ℤ a → pos 0 ≤ℤ r }
    ensures negative { (kind : Kind) (a b r : ℤ) → Arith Operator.Rem kind a b ≡ Ok r → a ≤ℤ pos 0 → r ≤ℤ pos 0 }
{}

/// A number wraps to one value.
pub fn wrapping_law()
    ensures { (kind : Kind) (exact n m : ℤ) → IsWrapped kind exact n → IsWrapped kind exact m → n ≡ m }
{}

/// A result is a value of the kind.
pub fn range_law()
    ensures { (operator : Operator) (kind : Kind) (a b n : ℤ) → Arith operator kind a b ≡ Ok n → InRange kind n }
{}
