//! The same three answers, one byte at a time.
ghost use Rattle.std.specs.Prelude.{◌≡◌, ◌≤◌, ◌<◌, ℕ, length, slice_index, IfSome};
ghost use Rattle.byte_lanes.specs.Difference.{IsFirstDifference};

use std::alloc::{AllocError, Global};

pub fn difference(a: &[u8], b: &[u8]) -> Option<usize>
    requires { length a.now ≡ length b.now }
    ensures { IfSome result (IsFirstDifference a.now b.now) }
{
    for place in 0..a.len() {
        if a[place] != b[place] {
            return Some(place);
        }
    }
    None
}

pub fn ascii(bytes: &[u8]) -> usize
    ensures within { result ≤ length bytes.now }
    ensures ascii { (k : ℕ) → k < result → slice_index bytes.now k < 128 }
    ensures stops { result < length bytes.now → 128 ≤ slice_index bytes.now result }
{
    for place in 0..bytes.len() {
        if bytes[place] > 127 {
            return place;
        }
    }
    bytes.len()
}

pub fn starts(alloc: Global, bytes: &[u8]) -> Result<Vec<u32>, AllocError>
    requires { length bytes.now ≤ 1048576 }
{
    let mut places = Vec::new(alloc);
    places.push(0)?;
    for place in 0..bytes.len() {
        if bytes[place] == b'\n' {
            places.push(place as u32 + 1)?;
        }
    }
    Ok(places)
}
