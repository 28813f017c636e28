//! Segments, which initialise a memory or a table (WebAssembly Core 1.0, sections 2.5.7 and 2.5.8).
ghost use Rattle.std.specs.Prelude.{◌≡◌, ◌+◌, length, nat_le, map, Option, Some, None, if◌then◌else◌};
ghost use Rattle.wasm_tree.specs.Load.{put_at, with_segments, with_elements};

use crate::constant::constant;
use page_store::KeptPages;
use wasm_tree::{DataSegment, ElementSegment};

/// Writes all segments into the memory, or gives false where one does not fit.
pub(crate) fn put_segments(segments: &[DataSegment], memory: &mut KeptPages) -> bool
    ensures put { with_segments segments.now memory.old.bytes ≡ (if result then Some memory.new.bytes else None) }
    ensures kept { memory.new.kept ≡ memory.old.kept }
    ensures limit { memory.new.limit ≡ memory.old.limit }
{
    for segment in segments {
        if !put_bytes(memory, constant(&segment.offset), segment.bytes.as_slice()) {
            return false;
        }
    }
    true
}

/// Writes all segments into the table, or gives false where one does not fit.
pub(crate) fn put_elements(segments: &[ElementSegment], table: &mut [Option<u32>]) -> bool
    ensures { with_elements segments.now table.old ≡ (if result then Some table.new else None) }
{
    for segment in segments {
        if !put_functions(
            table,
            constant(&segment.offset),
            segment.functions.as_slice(),
        ) {
            return false;
        }
    }
    true
}

// Writes the bytes from the place on, or gives false where they do not fit.
fn put_bytes(memory: &mut KeptPages, place: u64, bytes: &[u8]) -> bool
    ensures put { put_at place bytes.now memory.old.bytes ≡ (if result then Some memory.new.bytes else None) }
    ensures kept { memory.new.kept ≡ memory.old.kept }
    ensures limit { memory.new.limit ≡ memory.old.limit }
{
    memory.write(place, bytes)
}

// Puts the functions into the entries from the place on, or gives false where they do not fit.
fn put_functions(table: &mut [Option<u32>], place: u64, functions: &[u32]) -> bool
    ensures { put_at place (map Some functions.now) table.old ≡ (if result then Some table.new else None) }
{
    if !has_room(table.len(), place, functions.len()) {
        return false;
    }
    let start = place as usize;
    for (k, function) in functions.iter().enumerate() {
        table[start + k] = Some(*function);
    }
    true
}

// Whether so many items fit from the place on. None fit past the end, not even no items.
fn has_room(len: usize, place: u64, count: usize) -> bool
    ensures { result ≡ nat_le (place + count) len }
{
    place <= len as u64 && count <= len - place as usize
}
