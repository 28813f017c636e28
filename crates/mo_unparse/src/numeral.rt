//! Numerals.
ghost use Rattle.std.specs.Prelude.{◌≡◌, ◌≤◌, ◌<◌, OnOk};
ghost use Rattle.std.specs.Char.{digit_char};
ghost use Rattle.mo_unparse.specs.Spelling.{AddsNumeral};

use mo_num::{Bytes, Memory};

#[tactic(auto, using(crate::proofs::NumeralLemmas::adds_one, crate::proofs::NumeralLemmas::adds_more))]
/// Adds a numeral of the value, in a base from 2 to 36.
pub fn put_numeral(out: &mut Bytes, base: u64, value: u64) -> Result<(), Memory>
    requires least { 2 ≤ base }
    requires most { base ≤ 36 }
    ensures { OnOk result (AddsNumeral base value out.old out.new) }
{
    if value < base {
        return out.push(digit_byte(value as u8));
    }
    // At most 64 levels deep, since each has a bit less.
    put_numeral(out, base, value / base)?;
    out.push(digit_byte((value % base) as u8))
}

/// The digit's byte: `0` to `9`, then `a` to `z`.
pub fn digit_byte(digit: u8) -> u8
    requires { digit < 36 }
    ensures { result ≡ digit_char digit }
{
    if digit < 10 {
        b'0' + digit
    } else {
        b'a' - 10 + digit
    }
}
