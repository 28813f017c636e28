//! Numbers of values.
ghost use Rattle.std.specs.Prelude.{◌≡◌, ◌<◌, ◌≤◌, ◌^◌, IfOk};
ghost use Rattle.exact_reading.specs.Reading.{Tells};
ghost use Rattle.candid_read.specs.Parts.{nat_at, int_at, char_at, is_scalar, low_at, signed, signed_at, unsigned_at};

use candid_header::Fault;
use mo_types::Datum;

/// A number from 0 to 2^63 - 1, in at most ten bytes.
#[tactic(auto, unfolding(crate::specs::Parts::nat_at))]
pub fn read_nat(bytes: &[u8]) -> Result<(Datum, &[u8]), Fault>
    ensures { Tells (λ x. (x.0, x.1.now)) result (nat_at bytes.now) }
{
    let (value, rest) = exact_reading::read_unsigned(Fault::Short, Fault::NumberLimit, 70, bytes)?;
    if value < 1 << 63 {
        Ok((Datum::Number(value as i128), rest))
    } else {
        Err(Fault::NumberLimit)
    }
}

/// A number from -2^63 to 2^63 - 1, in at most ten bytes.
#[tactic(auto, unfolding(crate::specs::Parts::int_at))]
pub fn read_int(bytes: &[u8]) -> Result<(Datum, &[u8]), Fault>
    ensures { Tells (λ x. (x.0, x.1.now)) result (int_at bytes.now) }
{
    let (value, rest) = exact_reading::read_signed(Fault::Short, Fault::NumberLimit, 70, bytes)?;
    if -0x8000_0000_0000_0000 <= value && value <= 0x7fff_ffff_ffff_ffff {
        Ok((Datum::Number(value), rest))
    } else {
        Err(Fault::NumberLimit)
    }
}

/// A number of so many bytes, the lowest first.
#[tactic(auto, using(crate::proofs::Low::room, crate::proofs::Low::grows, crate::proofs::Low::low_err))]
fn read_low(width: u32, bytes: &[u8]) -> Result<(u64, &[u8]), Fault>
    requires { width ≤ 8 }
    ensures told { Tells (λ x. (x.0, x.1.now)) result (low_at width bytes.now) }
    ensures small { IfOk result (λ x. x.0 < 256 ^ width) }
{
    if width == 0 {
        return Ok((0, bytes));
    }
    let Some((first, rest)) = bytes.split_first() else {
        return Err(Fault::Short);
    };
    let low = *first as u64;
    match read_low(width - 1, rest) {
        Ok((high, rest)) => Ok((high * 256 + low, rest)),
        Err(fault) => Err(fault),
    }
}

/// A number without a sign, of so many bytes.
#[tactic(auto, unfolding(crate::specs::Parts::unsigned_at))]
pub fn read_unsigned(width: u32, bytes: &[u8]) -> Result<(Datum, &[u8]), Fault>
    requires { width ≤ 8 }
    ensures { Tells (λ x. (x.0, x.1.now)) result (unsigned_at width bytes.now) }
{
    let (value, rest) = read_low(width, bytes)?;
    Ok((Datum::Number(value as i128), rest))
}

/// The number that so many bits stand for.
fn with_sign(bits: u32, value: u64) -> i128
    requires some { 1 ≤ bits }
    requires most { bits ≤ 64 }
    ensures { result ≡ signed bits value }
{
    if (value as i128) < 1 << (bits - 1) {
        value as i128
    } else {
        value as i128 - (1 << bits)
    }
}

/// A number with a sign, of so many bytes.
#[tactic(auto, unfolding(crate::specs::Parts::signed_at))]
pub fn read_signed(width: u32, bytes: &[u8]) -> Result<(Datum, &[u8]), Fault>
    requires some { 1 ≤ width }
    requires most { width ≤ 8 }
    ensures { Tells (λ x. (x.0, x.1.now)) result (signed_at width bytes.now) }
{
    let (value, rest) = read_low(width, bytes)?;
    Ok((Datum::Number(with_sign(8 * width, value)), rest))
}

fn is_scalar(value: u64) -> bool
    ensures { result ≡ is_scalar value }
{
    value < 0xd800 || 0xe000 <= value && value < 0x11_0000
}

/// A character, by its number in four bytes.
#[tactic(auto, unfolding(crate::specs::Parts::char_at))]
pub fn read_char(bytes: &[u8]) -> Result<(Datum, &[u8]), Fault>
    ensures { Tells (λ x. (x.0, x.1.now)) result (char_at bytes.now) }
{
    let (value, rest) = read_low(4, bytes)?;
    if is_scalar(value) {
        Ok((Datum::Char(value as u32), rest))
    } else {
        Err(Fault::BadValue)
    }
}
