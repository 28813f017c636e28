//! Numbers and strings of bytes at the front. Numbers may be padded, up to the length that their width needs.
ghost use Rattle.exact_reading.specs.Reading.{Tells};
ghost use Rattle.candid_header.specs.Reading.{u32_at, s33_at, split_at, string_at};

use crate::fault::Fault;
use exact_reading::read_signed;

/// An unsigned number of 32 bits, and what comes after it. `wide` is the fault of one that is longer or greater.
pub fn read_u32(wide: Fault, bytes: &[u8]) -> Result<(u32, &[u8]), Fault>
    ensures { Tells (λ x. (x.0, x.1.now)) result (u32_at wide bytes.now) }
{
    exact_reading::read_u32(Fault::Short, wide, bytes)
}

/// A signed number of 33 bits, as references to entries of a table are written.
pub(crate) fn read_s33(bytes: &[u8]) -> Result<(i64, &[u8]), Fault>
    ensures { Tells (λ x. (x.0, x.1.now)) result (s33_at bytes.now) }
{
    match read_signed(Fault::Short, Fault::BadTable, 33, bytes) {
        Ok((value, rest)) => Ok((value as i64, rest)),
        Err(fault) => Err(fault),
    }
}

/// So many bytes, and what comes after them.
pub fn split(count: u32, bytes: &[u8]) -> Result<(&[u8], &[u8]), Fault>
    ensures { Tells (λ x. (x.0.now, x.1.now)) result (split_at count bytes.now) }
{
    exact_reading::split(Fault::Short, count, bytes)
}

/// Bytes behind their number, and what comes after them. `wide` is the fault of a number of more than 32 bits.
pub fn read_slice(wide: Fault, bytes: &[u8]) -> Result<(&[u8], &[u8]), Fault>
    ensures { Tells (λ x. (x.0.now, x.1.now)) result (string_at wide bytes.now) }
{
    exact_reading::read_slice(Fault::Short, wide, bytes)
}
