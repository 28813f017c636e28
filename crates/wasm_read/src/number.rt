//! Numbers and bytes at the front (WebAssembly Core 1.0, section 5.2).
ghost use Rattle.std.specs.Prelude.{◌≡◌};
ghost use Rattle.exact_reading.specs.Reading.{Tells, Gives};
ghost use Rattle.wasm_read.specs.Fields.{behind, u32_at, s32_at, s64_at, byte_vector_at, name_at};

use crate::fault::Fault;
use exact_reading::{Stop, read_signed};
use mo_num::Bytes;
use std::alloc::Global;

/// What comes after this byte.
pub fn after(code: u8, bytes: &[u8]) -> Result<&[u8], Fault>
    ensures { Tells (λ x. x.now) result (behind code bytes.now) }
{
    match bytes {
        [] => Err(Fault::Malformed),
        [byte, rest @ ..] => {
            if *byte == code {
                Ok(rest)
            } else {
                Err(Fault::Malformed)
            }
        }
    }
}

/// An unsigned number of 32 bits.
pub fn read_u32(bytes: &[u8]) -> Result<(u32, &[u8]), Fault>
    ensures { Tells (λ x. (x.0, x.1.now)) result (u32_at bytes.now) }
{
    exact_reading::read_u32(Fault::Malformed, Fault::Malformed, bytes)
}

/// A signed number of 32 bits.
pub fn read_s32(bytes: &[u8]) -> Result<(i32, &[u8]), Fault>
    ensures { Tells (λ x. (x.0, x.1.now)) result (s32_at bytes.now) }
{
    let (value, rest) = read_signed(Fault::Malformed, Fault::Malformed, 32, bytes)?;
    Ok((value as i32, rest))
}

/// A signed number of 64 bits.
pub fn read_s64(bytes: &[u8]) -> Result<(i64, &[u8]), Fault>
    ensures { Tells (λ x. (x.0, x.1.now)) result (s64_at bytes.now) }
{
    let (value, rest) = read_signed(Fault::Malformed, Fault::Malformed, 64, bytes)?;
    Ok((value as i64, rest))
}

/// Bytes behind their number.
pub fn read_slice(bytes: &[u8]) -> Result<(&[u8], &[u8]), Fault>
    ensures { Tells (λ x. (x.0.now, x.1.now)) result (byte_vector_at bytes.now) }
{
    exact_reading::read_slice(Fault::Malformed, Fault::Malformed, bytes)
}

/// Bytes behind their number, as a copy.
pub fn read_bytes(alloc: Global, bytes: &[u8]) -> Result<(Bytes, &[u8]), Stop<Fault>>
    ensures { Gives (λ x. (x.0, x.1.now)) result (byte_vector_at bytes.now) }
{
    exact_reading::read_bytes(alloc, Fault::Malformed, Fault::Malformed, bytes)
}

/// A name, which is in UTF-8.
#[tactic(auto, unfolding(crate::specs::Fields::name_at))]
pub fn name_slice(bytes: &[u8]) -> Result<(&[u8], &[u8]), Fault>
    ensures { Tells (λ x. (x.0.now, x.1.now)) result (name_at bytes.now) }
{
    let (slice, rest) = read_slice(bytes)?;
    match std::str::from_utf8(slice) {
        Ok(_) => Ok((slice, rest)),
        Err(_) => Err(Fault::Malformed),
    }
}

/// A name as a copy.
pub fn read_name(alloc: Global, bytes: &[u8]) -> Result<(Bytes, &[u8]), Stop<Fault>>
    ensures { Gives (λ x. (x.0, x.1.now)) result (name_at bytes.now) }
{
    let (slice, rest) = name_slice(bytes)?;
    Ok((Bytes::from_slice(alloc, slice)?, rest))
}
