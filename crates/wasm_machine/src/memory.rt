//! What stores and growing do to a linear memory.
ghost use Rattle.std.specs.Prelude.{◌≡◌, ◌+◌, ◌*◌, ◌/◌, ◌≤◌, ◌++◌, length, replicate, nat_le, cond, if◌then◌else◌};
ghost use Rattle.page_store.specs.Pages.{page_count};
ghost use Rattle.wasm_tree.specs.Exec.{store_size, pages_of};
ghost use Rattle.wasm_numeric.specs.Memory.{stored};
ghost use Rattle.wasm_machine.specs.Acts.{grown, is_refused, grow_answer};

use page_store::KeptPages;
use wasm_tree::StoreKind;

/// Writes the low bytes of a value, and gives whether all of them lie in the memory; else nothing is written.
#[inline(always)]
pub fn store_in(memory: &mut KeptPages, kind: StoreKind, address: u64, value: u64) -> bool
    ensures inside { result ≡ nat_le (address + store_size kind) (length memory.old.bytes) }
    ensures limit { memory.new.limit ≡ memory.old.limit }
    ensures kept { memory.new.kept ≡ memory.old.kept }
    ensures written { memory.new.bytes ≡ (if result then stored kind memory.old.bytes address value else memory.old.bytes) }
{
    match kind {
        StoreKind::I32 | StoreKind::I64To32 => {
            memory.write(address, &((value % 0x1_0000_0000) as u32).to_le_bytes())
        }
        StoreKind::I64 => memory.write(address, &value.to_le_bytes()),
        StoreKind::I32To8 | StoreKind::I64To8 => {
            memory.write(address, &((value % 0x100) as u8).to_le_bytes())
        }
        StoreKind::I32To16 | StoreKind::I64To16 => {
            memory.write(address, &((value % 0x1_0000) as u16).to_le_bytes())
        }
    }
}

/// Adds pages up to so many in all, and gives the old size. Past them nothing is added, and the refusal is kept.
pub fn grow(memory: &mut KeptPages, most: u32, by: u32, refused: &mut bool) -> u64
    requires { most ≤ memory.old.limit }
    ensures limit { memory.new.limit ≡ memory.old.limit }
    ensures kept { memory.new.kept ≡ memory.old.kept }
    ensures answer { result ≡ grow_answer most memory.old.bytes by }
    ensures grown { memory.new.bytes ≡ grown most memory.old.bytes by }
    ensures refused { refused.new ≡ is_refused most memory.old.bytes by refused.old }
{
    let size = memory.size();
    if u64::from(size) + u64::from(by) > u64::from(most) {
        *refused = true;
        return 0xffff_ffff;
    }
    u64::from(memory.grow(by).unwrap())
}
