//! Loads (section 4.4.4). Bytes stand in little endian.
ghost use Rattle.std.specs.Prelude.{◌≡◌, ◌+◌, ◌<◌, ◌≤◌, ◌^◌, nat_le};
ghost use Rattle.wasm_tree.specs.Exec.{extended};
ghost use Rattle.wasm_numeric.specs.Memory.{loaded, read};

use crate::conversion::{convert, word32, word64};
use wasm_tree::{Conversion, LoadKind};

/// What a load from this address gives, or `None` where one of its bytes would lie past the memory's end.
#[inline(always)]
pub fn load(kind: LoadKind, memory: &[u8], address: u64) -> Option<u64>
    ensures { result ≡ loaded kind memory.now address }
{
    match kind {
        LoadKind::I32 | LoadKind::I64From32U => Some(u64::from(read32(memory, address)?)),
        LoadKind::I64 => read64(memory, address),
        LoadKind::I32From8U | LoadKind::I64From8U => Some(u64::from(read8(memory, address)?)),
        LoadKind::I32From16U | LoadKind::I64From16U => Some(u64::from(read16(memory, address)?)),
        LoadKind::I32From8S => Some(extend8_to_32(read8(memory, address)?)),
        LoadKind::I32From16S => Some(extend16_to_32(read16(memory, address)?)),
        LoadKind::I64From8S => Some(extend8_to_64(read8(memory, address)?)),
        LoadKind::I64From16S => Some(extend16_to_64(read16(memory, address)?)),
        LoadKind::I64From32S => Some(extend32_to_64(read32(memory, address)?)),
    }
}

// Whether so many bytes from the address on lie in a memory of this length. No sum wraps.
#[inline(always)]
fn is_inside(len: usize, address: u64, count: u64) -> bool
    requires few { count ≤ 8 }
    requires len { len < 2 ^ 63 }
    ensures { result ≡ nat_le (address + count) len }
{
    address <= u64::MAX - 8 && address + count <= len as u64
}

#[inline(always)]
fn read8(memory: &[u8], address: u64) -> Option<u8>
    ensures { result ≡ read 1 memory.now address }
{
    if !is_inside(memory.len(), address, 1) {
        return None;
    }
    Some(memory[address as usize])
}

#[inline(always)]
fn read16(memory: &[u8], address: u64) -> Option<u16>
    ensures { result ≡ read 2 memory.now address }
{
    if !is_inside(memory.len(), address, 2) {
        return None;
    }
    let at = address as usize;
    let bytes = &memory[at..at + 2];
    Some(u16::from_le_bytes([bytes[0], bytes[1]]))
}

#[inline(always)]
fn read32(memory: &[u8], address: u64) -> Option<u32>
    ensures { result ≡ read 4 memory.now address }
{
    if !is_inside(memory.len(), address, 4) {
        return None;
    }
    let at = address as usize;
    let bytes = &memory[at..at + 4];
    Some(u32::from_le_bytes([bytes[0], bytes[1], bytes[2], bytes[3]]))
}

#[inline(always)]
fn read64(memory: &[u8], address: u64) -> Option<u64>
    ensures { result ≡ read 8 memory.now address }
{
    if !is_inside(memory.len(), address, 8) {
        return None;
    }
    let at = address as usize;
    let bytes = &memory[at..at + 8];
    Some(u64::from_le_bytes([
        bytes[0], bytes[1], bytes[2], bytes[3], bytes[4], bytes[5], bytes[6], bytes[7],
    ]))
}

#[inline(always)]
fn extend8_to_32(n: u8) -> u64
    ensures { result ≡ extended LoadKind.I32From8S n }
{
    word32(i32::from(n.cast_signed()))
}

#[inline(always)]
fn extend16_to_32(n: u16) -> u64
    ensures { result ≡ extended LoadKind.I32From16S n }
{
    word32(i32::from(n.cast_signed()))
}

#[inline(always)]
fn extend8_to_64(n: u8) -> u64
    ensures { result ≡ extended LoadKind.I64From8S n }
{
    word64(i64::from(n.cast_signed()))
}

#[inline(always)]
fn extend16_to_64(n: u16) -> u64
    ensures { result ≡ extended LoadKind.I64From16S n }
{
    word64(i64::from(n.cast_signed()))
}

#[inline(always)]
fn extend32_to_64(n: u32) -> u64
    ensures { result ≡ extended LoadKind.I64From32S n }
{
    convert(Conversion::ExtendS, u64::from(n))
}
