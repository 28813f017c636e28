//! Numbers in base 128 at the front. They may be padded, up to the length that their width needs.
ghost use Rattle.std.specs.Prelude.{◌≡◌, ◌<◌, ◌≤◌, ◌^◌, IfOk};
ghost use Rattle.mo_num.specs.LebRead.{IsSigned};
ghost use Rattle.exact_reading.specs.Reading.{Tells, unsigned_at, signed_at, u32_at};

use mo_num::{LebFault, leb_read, sleb_read};

/// An unsigned number of so many bits (1 to 128), and what comes after it. `short` is the fault where the bytes end
/// before the number does, and `wide` that of one that is longer or greater.
pub fn read_unsigned<F: Copy>(
    short: F,
    wide: F,
    bits: u32,
    bytes: &[u8],
) -> Result<(u128, &[u8]), F>
    requires some { 1 ≤ bits }
    requires most { bits ≤ 128 }
    ensures told { Tells (λ x. (x.0, x.1.now)) result (unsigned_at short wide bits bytes.now) }
    ensures small { IfOk result (λ x. x.0 < 2 ^ bits) }
{
    match leb_read(bytes, bits) {
        Ok((value, count)) => {
            let (_, rest) = bytes.split_at(count);
            Ok((value, rest))
        }
        Err(LebFault::Short) => Err(short),
        Err(LebFault::TooWide) => Err(wide),
    }
}

/// A signed number of so many bits (1 to 128), and what comes after it.
pub fn read_signed<F: Copy>(short: F, wide: F, bits: u32, bytes: &[u8]) -> Result<(i128, &[u8]), F>
    requires some { 1 ≤ bits }
    requires most { bits ≤ 128 }
    ensures told { Tells (λ x. (x.0, x.1.now)) result (signed_at short wide bits bytes.now) }
    ensures small { IfOk result (λ x. IsSigned bits x.0) }
{
    match sleb_read(bytes, bits) {
        Ok((value, count)) => {
            let (_, rest) = bytes.split_at(count);
            Ok((value, rest))
        }
        Err(LebFault::Short) => Err(short),
        Err(LebFault::TooWide) => Err(wide),
    }
}

fn read_long_u32<F: Copy>(short: F, wide: F, bytes: &[u8]) -> Result<(u32, &[u8]), F>
    ensures { Tells (λ x. (x.0, x.1.now)) result (u32_at short wide bytes.now) }
{
    match read_unsigned(short, wide, 32, bytes) {
        Ok((value, rest)) => Ok((value as u32, rest)),
        Err(fault) => Err(fault),
    }
}

/// An unsigned number of 32 bits, and what comes after it.
pub fn read_u32<F: Copy>(short: F, wide: F, bytes: &[u8]) -> Result<(u32, &[u8]), F>
    ensures { Tells (λ x. (x.0, x.1.now)) result (u32_at short wide bytes.now) }
{
    // Most numbers are one byte.
    match bytes {
        [byte, rest @ ..] if *byte < 128 => Ok((*byte as u32, rest)),
        _ => read_long_u32(short, wide, bytes),
    }
}
