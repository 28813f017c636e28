//! Where the lines of a text start.
ghost use Rattle.std.specs.Prelude.{◌≡◌, ◌<◌, ◌≤◌, ◌+◌, ◌++◌, Some, length, take, slice_get, All, IfOk};
ghost use Rattle.std.specs.List.Sorted.{IsStrictlyIncreasing};
ghost use Rattle.byte_lanes.specs.Lines.{line_start_places};
ghost use Rattle.byte_lanes.specs.Mask.{marked_places};

use crate::Starts;
use crate::mask::{LANES, equal_to};
use std::alloc::{AllocError, Global};

// Places that are found before they are added to the list.
const ROOM: usize = 256;

/// The place 0 and each place after a newline (byte 10), in order, for at most 1,048,576 bytes. The only error is want of memory.
pub fn line_starts(alloc: Global, bytes: &[u8]) -> Result<Starts, AllocError>
    requires { length bytes.now ≤ 1048576 }
    ensures value { IfOk result (λ starts. starts ≡ line_start_places bytes.now) }
    ensures first { IfOk result (λ starts. slice_get starts 0 ≡ Some 0) }
    ensures rising { IfOk result IsStrictlyIncreasing }
    ensures within { IfOk result (All (λ place. place ≤ length bytes.now)) }
    ensures len { IfOk result (λ starts. length starts ≤ length bytes.now + 1) }
{
    let mut places = Vec::new(alloc);
    places.push(0)?;
    let mut found = [0u32; ROOM];
    let mut count = 0;
    let mut at = 0;
    while LANES <= bytes.len() - at {
        count = with_room(&mut places, &found, count)?;
        let newlines = equal_to(bytes, at, b'\n');
        count = put_marked(&mut found, count, at as u32 + 1, newlines);
        at += LANES;
    }
    places.extend_from_slice(&found[..count])?;
    for place in at..bytes.len() {
        if bytes[place] == b'\n' {
            places.push(place as u32 + 1)?;
        }
    }
    Ok(Starts::from_vec(places))
}

// Adds the first `count` places that were found to the others where there is no room for those of one more mask. Gives the count that is left.
fn with_room(places: &mut Vec<u32>, found: &[u32; ROOM], count: usize) -> Result<usize, AllocError>
    requires { count ≤ ROOM }
    ensures room { IfOk result (λ left. left + 64 ≤ ROOM) }
    ensures kept { IfOk result (λ left. places.new.items ++ take left found.now ≡ places.old.items ++ take count found.now) }
{
    if count <= ROOM - LANES {
        return Ok(count);
    }
    places.extend_from_slice(&found[..count])?;
    Ok(0)
}

// Writes the place of each bit that is set behind the first `count` places, where bit 0 stands for the place `base`. Gives the new count.
// There are at least four writes, since a processor foresees that number; what lies behind the count is not read.
fn put_marked(found: &mut [u32; ROOM], count: usize, base: u32, mask: u64) -> usize
    requires room { count + 64 ≤ ROOM }
    requires small { base < 2000000 }
    ensures bound { result ≤ ROOM }
    ensures places { take result found.new ≡ take count found.old ++ marked_places 64 base mask }
{
    let bits = mask.count_ones() as usize;
    let mut left = mask;
    for lane in 0..bits.max(4) {
        found[count + lane] = base + left.trailing_zeros();
        left &= left.wrapping_sub(1);
    }
    count + bits
}
