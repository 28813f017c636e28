//! Conversions between the integers of the two types (section 4.3.4).
ghost use Rattle.std.specs.Prelude.{◌≡◌, ◌<◌, ◌^◌};
ghost use Rattle.wasm_tree.specs.Numeric.{low, unsigned, convert};

use wasm_tree::{Conversion, ValueType};

/// The low 32 bits of a word, as an instruction of i32 takes it.
#[inline(always)]
pub(crate) fn low32(x: u64) -> u32
    ensures { result ≡ low ValueType.I32 x }
{
    (x % 0x1_0000_0000) as u32
}

/// The word of a signed integer of 32 bits.
#[inline(always)]
pub(crate) fn word32(z: i32) -> u64
    ensures { result ≡ unsigned ValueType.I32 z }
{
    u64::from(z.cast_unsigned())
}

/// The word of a signed integer of 64 bits.
#[inline(always)]
pub(crate) fn word64(z: i64) -> u64
    ensures { result ≡ unsigned ValueType.I64 z }
{
    z.cast_unsigned()
}

/// What a conversion gives.
#[inline(always)]
pub fn convert(conversion: Conversion, x: u64) -> u64
    ensures { result ≡ convert conversion x }
{
    let x = low32(x);
    match conversion {
        Conversion::Wrap | Conversion::ExtendU => u64::from(x),
        Conversion::ExtendS => word64(i64::from(x.cast_signed())),
    }
}
