// Masks of 64 bits: bit k tells of the byte at place `at + k`.
ghost use Rattle.std.specs.Prelude.{◌≡◌, ◌≢◌, ℕ, ◌+◌, ◌<◌, ◌≤◌, ◌==◌, nat_le, not, length, slice_index};
ghost use Rattle.std.specs.Int.{bit_at};
ghost use Rattle.byte_lanes.specs.Mask.{Marks};

use std::simd::prelude::*;

// Bytes in one load.
pub(crate) const LANES: usize = 64;

// Where the two differ.
pub(crate) fn differing(a: &[u8], b: &[u8], at: usize) -> u64
    requires in_a { at + 64 ≤ length a.now }
    requires in_b { at + 64 ≤ length b.now }
    ensures { Marks (λ k. not (slice_index a.now (at + k) == slice_index b.now (at + k))) result }
{
    let apart = u8x64::from_slice(&a[at..]).simd_ne(u8x64::from_slice(&b[at..]));
    apart.to_bitmask()
}

// Where a byte is above 127.
pub(crate) fn beyond_ascii(bytes: &[u8], at: usize) -> u64
    requires { at + 64 ≤ length bytes.now }
    ensures { Marks (λ k. nat_le 128 (slice_index bytes.now (at + k))) result }
{
    let beyond = u8x64::from_slice(&bytes[at..]).simd_ge(u8x64::splat(128));
    beyond.to_bitmask()
}

// Where a byte is the given one.
pub(crate) fn equal_to(bytes: &[u8], at: usize, byte: u8) -> u64
    requires { at + 64 ≤ length bytes.now }
    ensures { Marks (λ k. slice_index bytes.now (at + k) == byte) result }
{
    let equal = u8x64::from_slice(&bytes[at..]).simd_eq(u8x64::splat(byte));
    equal.to_bitmask()
}

// The place of the lowest bit that is set.
pub(crate) fn lowest(mask: u64) -> usize
    requires { mask ≢ 0 }
    ensures bound { result < 64 }
    ensures set { bit_at mask result ≡ 1 }
    ensures below { (k : ℕ) → k < result → bit_at mask k ≡ 0 }
{
    mask.trailing_zeros() as usize
}
