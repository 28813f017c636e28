//! A linear memory of pages of 65,536 bytes.
ghost use Rattle.std.specs.Prelude.{◌≡◌, ◌+◌, ◌*◌, ◌%◌, ◌<◌, ◌≤◌, ◌↔◌, ◌++◌, [], length, IfOk, IsTrue, IsNone, IfNone, IfSome, OnSome, nat_le, if◌then◌else◌};
ghost use Rattle.page_store.specs.Pages.{AreMarked, IsPaged, overwritten, page_at, page_bytes, page_count, zero_pages};

use byte_lanes::first_difference;
use std::alloc::{AllocError, Global};
use std::marker::Model;

/// The bytes of a page.
pub const PAGE: usize = 65_536;

/// A linear memory (WebAssembly Core 1.0, section 4.2.8), which contracts see as its limit in pages and its bytes.
/// The room for all pages of the limit is taken when it is made, and nothing beyond the size is ever seen.
#[derive(Drop)]
pub struct Pages {
    limit: u32,
    bytes: Vec<u8>,
}

impl Model for Pages {
    ghost use Rattle.std.specs.Prelude.{◌*◌, ◌≤◌};
    ghost use Rattle.std.specs.Vec.{vec_len, vec_capacity};
    ghost use Rattle.page_store.specs.Pages.{LinearMemory, IsPaged, page_bytes};

    ghost Value = { LinearMemory };

    ghost view = { λ p. record { limit = p.limit; bytes = p.bytes.items } };

    ghost invariant = { λ p. IsPaged p.limit (vec_len p.bytes) × (p.limit * page_bytes ≤ vec_capacity p.bytes) };
}

impl Pages {
    /// A memory of size 0 that may have up to `limit` pages. Takes the room for them, and time for none of them.
    pub fn new(alloc: Global, limit: u32) -> Result<Self, AllocError>
        requires { limit ≤ 65536 }
        ensures { IfOk result (λ pages. pages ≡ record { limit = limit; bytes = [] }) }
    {
        Ok(Pages {
            limit,
            bytes: Vec::with_capacity(alloc, limit as usize * PAGE)?,
        })
    }

    /// How many pages there are.
    pub fn size(&self) -> u32
        ensures value { result ≡ page_count self.now }
        ensures whole { result * page_bytes ≡ length self.now.bytes }
        ensures paged { IsPaged self.now.limit (length self.now.bytes) }
    {
        (self.bytes.len() / PAGE) as u32
    }

    /// Adds pages whose bytes are 0, and gives the old size. `None` where the limit has no room for them; then nothing changes.
    pub fn grow(&mut self, by: u32) -> Option<u32>
        ensures refused { IsNone result ↔ (self.old.limit < page_count self.old + by) }
        ensures unchanged { IfNone result (self.new ≡ self.old) }
        ensures old_size { IfSome result (λ size. size ≡ page_count self.old) }
        ensures grown { OnSome result (self.new ≡ record self.old { bytes = self.old.bytes ++ zero_pages by }) }
    {
        let size = self.size();
        if by > self.limit - size {
            return None;
        }
        let len = self.bytes.len() + by as usize * PAGE;
        self.bytes.resize(len, 0).unwrap();
        Some(size)
    }

    /// Takes all pages away.
    pub fn clear(&mut self)
        ensures { self.new ≡ record self.old { bytes = [] } }
    {
        self.bytes.clear();
    }

    /// The bytes of all pages.
    pub fn bytes(&self) -> &[u8]
        ensures value { result.now ≡ self.now.bytes }
        ensures paged { IsPaged self.now.limit (length self.now.bytes) }
    {
        self.bytes.as_slice()
    }

    /// Writes these bytes from the place on, and gives whether all of them lie in the memory; else nothing is written.
    #[inline(always)]
    pub fn write(&mut self, place: u64, these: &[u8]) -> bool
        ensures inside { result ≡ nat_le (place + length these.now) (length self.old.bytes) }
        ensures written { self.new ≡ (if result then record self.old { bytes = overwritten place these.now self.old.bytes } else self.old) }
        ensures paged { IsPaged self.old.limit (length self.old.bytes) }
    {
        let len = self.bytes.len();
        if these.len() > len || place > (len - these.len()) as u64 {
            return false;
        }
        let start = place as usize;
        self.bytes.as_mut_slice()[start..start + these.len()].copy_from_slice(these);
        true
    }

    // Takes on the size and the bytes of the other memory. Only pages that differ are written.
    pub(crate) fn copy_from(&mut self, other: &Pages)
        requires { self.old.limit ≡ other.now.limit }
        ensures { self.new ≡ other.now }
    {
        self.bytes.truncate(other.bytes.len());
        let shared = self.bytes.len();
        copy_differing(&other.bytes.as_slice()[..shared], self.bytes.as_mut_slice());
        self.bytes
            .extend_from_slice(&other.bytes.as_slice()[shared..])
            .unwrap();
    }

    // The same, where each page without a mark is the same in both. Only pages with a mark are written.
    pub(crate) fn copy_marked(&mut self, other: &Pages, marks: &[bool])
        requires limit { self.old.limit ≡ other.now.limit }
        requires marks { length marks.now ≡ other.now.limit }
        requires marked { AreMarked marks.now other.now.bytes self.old.bytes }
        ensures { self.new ≡ other.now }
    {
        self.bytes.truncate(other.bytes.len());
        let shared = self.bytes.len();
        copy_marked_pages(
            &other.bytes.as_slice()[..shared],
            self.bytes.as_mut_slice(),
            marks,
        );
        self.bytes
            .extend_from_slice(&other.bytes.as_slice()[shared..])
            .unwrap();
    }
}

// Writes each page with a mark over the other's. Both are of so many whole pages.
fn copy_marked_pages(from: &[u8], to: &mut [u8], marks: &[bool])
    requires same_len { length from.now ≡ length to.old }
    requires whole { length from.now % page_bytes ≡ 0 }
    requires enough { length from.now ≤ length marks.now * page_bytes }
    requires marked { AreMarked marks.now from.now to.old }
    ensures { to.new ≡ from.now }
{
    for page in 0..from.len() / PAGE {
        if marks[page] {
            let (start, end) = (page * PAGE, (page + 1) * PAGE);
            to[start..end].copy_from_slice(&from[start..end]);
        }
    }
}

// Writes each page that differs over the other's. Both are of so many whole pages.
fn copy_differing(from: &[u8], to: &mut [u8])
    requires same_len { length from.now ≡ length to.old }
    requires whole { length from.now % page_bytes ≡ 0 }
    ensures { to.new ≡ from.now }
{
    for page in 0..from.len() / PAGE {
        if !is_same_page(from, to, page) {
            let (start, end) = (page * PAGE, (page + 1) * PAGE);
            to[start..end].copy_from_slice(&from[start..end]);
        }
    }
}

// Whether this page is the same in both.
pub(crate) fn is_same_page(a: &[u8], b: &[u8], page: usize) -> bool
    requires in_a { (page + 1) * page_bytes ≤ length a.now }
    requires in_b { (page + 1) * page_bytes ≤ length b.now }
    ensures { IsTrue result ↔ (page_at a.now page ≡ page_at b.now page) }
{
    let (start, end) = (page * PAGE, (page + 1) * PAGE);
    first_difference(&a[start..end], &b[start..end]).is_none()
}
