//! Ranges of memories.
ghost use Rattle.std.specs.Prelude.{◌≡◌, ◌+◌, nat_le, length, true, false, IsFalse, MatchOption};
ghost use Rattle.ic0_world.specs.Act as act;
ghost use Rattle.ic0_world.specs.Act.{Copied};

use page_store::KeptPages;

// Whether a range lies inside so many bytes. One of size 0 that begins at the end does.
fn is_inside(place: u64, size: u64, len: usize) -> bool
    ensures { result ≡ nat_le (place + size) len }
{
    place as u128 + size as u128 <= len as u128
}

/// The bytes of the range, if it lies inside.
pub fn range(bytes: &[u8], place: u64, size: u64) -> Option<&[u8]>
    ensures { MatchOption result (act.is_inside place size bytes.now ≡ false) (λ found. (act.is_inside place size bytes.now ≡ true) × (found.now ≡ act.range place size bytes.now)) }
{
    if is_inside(place, size, bytes.len()) {
        let place = place as usize;
        Some(&bytes[place..place + size as usize])
    } else {
        None
    }
}

/// Writes the range of the data to a place of the memory, if both lie inside; else nothing is written.
pub fn copy(bytes: &[u8], destination: u64, offset: u64, size: u64, memory: &mut KeptPages) -> bool
    ensures copied { Copied result destination offset size bytes.now memory.old.bytes memory.new.bytes }
    ensures unchanged { IsFalse result → memory.new ≡ memory.old }
    ensures size { length memory.new.bytes ≡ length memory.old.bytes }
    ensures kept { memory.new.kept ≡ memory.old.kept }
    ensures limit { memory.new.limit ≡ memory.old.limit }
{
    match range(bytes, offset, size) {
        Some(from) => memory.write(destination, from),
        None => false,
    }
}
