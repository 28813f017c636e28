//! A linear memory with what the last commit kept of it.
ghost use Rattle.std.specs.Prelude.{◌≡◌, ◌+◌, ◌*◌, ◌<◌, ◌≤◌, ◌↔◌, ◌++◌, [], nat_le, length, IfOk, IsNone, IfNone, IfSome, OnSome, if◌then◌else◌};
ghost use Rattle.page_store.specs.Pages.{IsPaged, live, overwritten, page_bytes, page_count, zero_pages};

use crate::marks::mark;
use crate::pages::{PAGE, Pages};
use std::alloc::{AllocError, Global};
use std::marker::Model;

/// A linear memory, and the size and the bytes that it had at the last commit, which contracts see beside its limit in
/// pages. Each page that was written since has a mark, so that only those are copied. All room is taken when it is made.
#[derive(Drop)]
pub struct KeptPages {
    live: Pages,
    kept: Pages,
    marks: Vec<bool>,
}

impl Model for KeptPages {
    ghost use Rattle.std.specs.Prelude.{◌≡◌};
    ghost use Rattle.std.specs.Vec.{vec_len};
    ghost use Rattle.page_store.specs.Pages.{KeptMemory, AreMarked};

    ghost Value = { KeptMemory };

    ghost view = { λ p. record { limit = p.live.limit; bytes = p.live.bytes; kept = p.kept.bytes } };

    ghost invariant = { λ p. (p.kept.limit ≡ p.live.limit) × (vec_len p.marks ≡ p.live.limit) × AreMarked p.marks.items p.live.bytes p.kept.bytes };
}

impl KeptPages {
    /// A memory of size 0 that may have up to `limit` pages, as if committed. Takes the room for all of them and their
    /// copies, and time for their marks.
    pub fn new(alloc: Global, limit: u32) -> Result<Self, AllocError>
        requires { limit ≤ 65536 }
        ensures { IfOk result (λ pages. pages ≡ record { limit = limit; bytes = []; kept = [] }) }
    {
        Ok(KeptPages {
            live: Pages::new(alloc, limit)?,
            kept: Pages::new(alloc, limit)?,
            marks: vec![in alloc; false; limit as usize]?,
        })
    }

    /// How many pages there are.
    #[inline(always)]
    pub fn size(&self) -> u32
        ensures value { result ≡ page_count (live self.now) }
        ensures whole { result * page_bytes ≡ length self.now.bytes }
        ensures paged { IsPaged self.now.limit (length self.now.bytes) }
    {
        self.live.size()
    }

    /// The bytes of all pages.
    #[inline(always)]
    pub fn bytes(&self) -> &[u8]
        ensures value { result.now ≡ self.now.bytes }
        ensures paged { IsPaged self.now.limit (length self.now.bytes) }
    {
        self.live.bytes()
    }

    /// Adds pages whose bytes are 0, and gives the old size. `None` where the limit has no room for them; then nothing changes.
    pub fn grow(&mut self, by: u32) -> Option<u32>
        ensures refused { IsNone result ↔ (self.old.limit < page_count (live self.old) + by) }
        ensures unchanged { IfNone result (self.new ≡ self.old) }
        ensures old_size { IfSome result (λ size. size ≡ page_count (live self.old)) }
        ensures grown { OnSome result (self.new ≡ record self.old { bytes = self.old.bytes ++ zero_pages by }) }
    {
        let first = self.live.size() as usize;
        let size = self.live.grow(by)?;
        mark(self.marks.as_mut_slice(), first, first + by as usize);
        Some(size)
    }

    /// Takes all pages away.
    pub fn clear(&mut self)
        ensures { self.new ≡ record self.old { bytes = [] } }
    {
        let end = self.live.size() as usize;
        mark(self.marks.as_mut_slice(), 0, end);
        self.live.clear();
    }

    /// Writes these bytes from the place on, and gives whether all of them lie in the memory; else nothing is written.
    #[inline(always)]
    pub fn write(&mut self, place: u64, these: &[u8]) -> bool
        ensures inside { result ≡ nat_le (place + length these.now) (length self.old.bytes) }
        ensures written { self.new ≡ (if result then record self.old { bytes = overwritten place these.now self.old.bytes } else self.old) }
    {
        if !self.live.write(place, these) {
            return false;
        }
        let start = place as usize;
        let end = start + these.len();
        mark(self.marks.as_mut_slice(), start / PAGE, end.div_ceil(PAGE));
        true
    }

    /// Keeps the size and the bytes as they are now. Costs the pages that were written since the last time.
    pub fn commit(&mut self)
        ensures { self.new ≡ record self.old { kept = self.old.bytes } }
    {
        self.kept.copy_marked(&self.live, self.marks.as_slice());
        self.marks.fill(false);
    }

    /// Gives back the size and the bytes of the last commit. Costs the pages that were written since.
    pub fn restore(&mut self)
        ensures { self.new ≡ record self.old { bytes = self.old.kept } }
    {
        self.live.copy_marked(&self.kept, self.marks.as_slice());
        self.marks.fill(false);
    }
}
