//! Reads numbers in base 128, as WebAssembly Core 1.0 section 5.2.2 and the Candid specification write them.
ghost use Rattle.std.specs.Prelude.{◌≡◌, ◌^◌, ◌<◌, ◌≤◌, ℤ, pos, ◌-◌, IsTrue, ◌↔◌, [], ◌∷◌};
ghost use Rattle.mo_num.specs.Leb.{IsSleb};
ghost use Rattle.mo_num.specs.LebRead.{ReadsLeb, ReadsSleb, IsSigned};

use thiserror::Error;

/// Why no number could be read.
#[derive(Clone, Copy, Debug, PartialEq, Eq, Error)]
pub enum LebFault {
    /// The bytes end before the number does, and the number may be longer than they are.
    #[error("the bytes end inside a number")]
    Short,
    /// The number is longer than its width allows, or its value needs more bits.
    #[error("a number is wider than its type")]
    TooWide,
}

/// The unsigned number of so many bits (1 to 128) at the front of the bytes, and how many bytes spell it. It may be
/// padded, up to the length that the width needs.
pub fn leb_read(bytes: &[u8], bits: u32) -> Result<(u128, usize), LebFault>
    requires some { 1 ≤ bits }
    requires most { bits ≤ 128 }
    ensures { ReadsLeb bits bytes.now result }
{
    let Some((first, rest)) = bytes.split_first() else {
        return Err(LebFault::Short);
    };
    let low = *first as u128;
    if low < 128 {
        return if fits(low, bits) {
            Ok((low, 1))
        } else {
            Err(LebFault::TooWide)
        };
    }
    if bits < 8 {
        return Err(LebFault::TooWide);
    }
    match leb_read(rest, bits - 7) {
        Ok((high, count)) => Ok((low - 128 + 128 * high, count + 1)),
        Err(fault) => Err(fault),
    }
}

/// The signed number of so many bits (1 to 128) at the front of the bytes, and how many bytes spell it. It may be
/// padded, up to the length that the width needs.
pub fn sleb_read(bytes: &[u8], bits: u32) -> Result<(i128, usize), LebFault>
    requires some { 1 ≤ bits }
    requires most { bits ≤ 128 }
    ensures { ReadsSleb bits bytes.now result }
{
    let Some((first, rest)) = bytes.split_first() else {
        return Err(LebFault::Short);
    };
    let low = *first;
    if low < 128 {
        let value = last_digit(low);
        return if fits_signed(value, bits) {
            Ok((value, 1))
        } else {
            Err(LebFault::TooWide)
        };
    }
    if bits <= 7 {
        return Err(LebFault::TooWide);
    }
    match sleb_read(rest, bits - 7) {
        Ok((high, count)) => Ok((low as i128 - 128 + 128 * high, count + 1)),
        Err(fault) => Err(fault),
    }
}

fn last_digit(byte: u8) -> i128
    requires { byte < 128 }
    ensures { IsSleb (byte ∷ []) result }
{
    if byte < 64 {
        byte as i128
    } else {
        byte as i128 - 128
    }
}

fn fits(digit: u128, bits: u32) -> bool
    requires { digit < 128 }
    ensures { IsTrue result ↔ (digit < 2 ^ bits) }
{
    bits >= 7 || digit < 1 << bits
}

fn fits_signed(digit: i128, bits: u32) -> bool
    requires some { 1 ≤ bits }
    requires signed { IsSigned 7 digit }
    ensures { IsTrue result ↔ IsSigned bits digit }
{
    if bits >= 7 {
        return true;
    }
    let half = 1 << (bits - 1);
    -half <= digit && digit < half
}
