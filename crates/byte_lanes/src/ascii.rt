//! How far a slice is ASCII.
ghost use Rattle.std.specs.Prelude.{◌≡◌, ◌<◌, ◌≤◌, ℕ, length, slice_index};
ghost use Rattle.byte_lanes.specs.Ascii.{ascii_prefix_len};

use crate::mask::{LANES, beyond_ascii, lowest};

/// The number of bytes before the first one above 127, the whole length where there is none. Takes no memory.
pub fn ascii_prefix(bytes: &[u8]) -> usize
    ensures value { result ≡ ascii_prefix_len bytes.now }
    ensures within { result ≤ length bytes.now }
    ensures ascii { (k : ℕ) → k < result → slice_index bytes.now k < 128 }
    ensures stops { result < length bytes.now → 128 ≤ slice_index bytes.now result }
{
    let mut at = 0;
    while LANES <= bytes.len() - at {
        let mask = beyond_ascii(bytes, at);
        if mask != 0 {
            return at + lowest(mask);
        }
        at += LANES;
    }
    ascii_end(bytes, at)
}

// The place of the first byte from `start` on that is above 127, or the end.
fn ascii_end(bytes: &[u8], start: usize) -> usize
    requires { start ≤ length bytes.now }
    ensures ordered { start ≤ result }
    ensures within { result ≤ length bytes.now }
    ensures ascii { (k : ℕ) → start ≤ k → k < result → slice_index bytes.now k < 128 }
    ensures stops { result < length bytes.now → 128 ≤ slice_index bytes.now result }
{
    let mut end = start;
    while end < bytes.len() && bytes[end] < 128 {
        end += 1;
    }
    end
}
