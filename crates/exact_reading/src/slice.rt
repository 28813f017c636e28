//! Bytes that are as many as a number says.
ghost use Rattle.std.specs.Prelude.{◌≡◌};
ghost use Rattle.exact_reading.specs.Reading.{Tells, Gives, split_at, string_at};

use crate::number::read_u32;
use crate::stop::Stop;
use mo_num::Bytes;
use std::alloc::Global;

/// So many bytes, and what comes after them.
pub fn split<F: Copy>(short: F, count: u32, bytes: &[u8]) -> Result<(&[u8], &[u8]), F>
    ensures { Tells (λ x. (x.0.now, x.1.now)) result (split_at short count bytes.now) }
{
    let count = count as usize;
    if bytes.len() < count {
        return Err(short);
    }
    Ok(bytes.split_at(count))
}

/// Bytes behind their number, and what comes after them. `wide` is the fault of a number of more than 32 bits.
#[tactic(auto, unfolding(crate::specs::Reading::string_at))]
pub fn read_slice<F: Copy>(short: F, wide: F, bytes: &[u8]) -> Result<(&[u8], &[u8]), F>
    ensures { Tells (λ x. (x.0.now, x.1.now)) result (string_at short wide bytes.now) }
{
    let (count, rest) = read_u32(short, wide, bytes)?;
    split(short, count, rest)
}

/// Bytes behind their number, as a copy.
pub fn read_bytes<F: Copy>(
    alloc: Global,
    short: F,
    wide: F,
    bytes: &[u8],
) -> Result<(Bytes, &[u8]), Stop<F>>
    ensures { Gives (λ x. (x.0, x.1.now)) result (string_at short wide bytes.now) }
{
    match read_slice(short, wide, bytes) {
        Ok((slice, rest)) => Ok((Bytes::from_slice(alloc, slice)?, rest)),
        Err(fault) => Err(Stop::Fault(fault)),
    }
}
