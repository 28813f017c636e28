//! The committed copy of a linear memory.
ghost use Rattle.std.specs.Prelude.{◌≡◌, ◌≤◌, [], IfOk};
ghost use Rattle.page_store.specs.Pages.{changed_pages};

use crate::pages::{Pages, is_same_page};
use std::alloc::{AllocError, Global};
use std::marker::Model;

/// The size and the bytes that a linear memory had at the last commit, which contracts see as they see that memory.
/// All room is taken when it is made.
#[derive(Drop)]
pub struct Committed {
    kept: Pages,
}

impl Model for Committed {
    ghost use Rattle.page_store.specs.Pages.{LinearMemory};

    ghost Value = { LinearMemory };

    ghost view = { λ c. c.kept };
}

impl Committed {
    /// The copy of a memory of size 0 with this limit in pages. Takes the room for them, and time for none of them.
    pub fn new(alloc: Global, limit: u32) -> Result<Self, AllocError>
        requires { limit ≤ 65536 }
        ensures { IfOk result (λ committed. committed ≡ record { limit = limit; bytes = [] }) }
    {
        Ok(Committed {
            kept: Pages::new(alloc, limit)?,
        })
    }

    /// Keeps the size and the bytes as they are now. Writes only the pages that have changed since the last time.
    pub fn commit(&mut self, now: &Pages)
        requires { self.old.limit ≡ now.now.limit }
        ensures { self.new ≡ now.now }
    {
        self.kept.copy_from(now);
    }

    /// Gives back the size and the bytes of the last commit. Writes only the pages that have changed since.
    pub fn restore(&self, now: &mut Pages)
        requires { self.now.limit ≡ now.old.limit }
        ensures { now.new ≡ self.now }
    {
        now.copy_from(&self.kept);
    }

    /// How many pages have changed since the last commit, those added or taken away among them.
    pub fn changed(&self, now: &Pages) -> u32
        ensures { result ≡ changed_pages self.now now.now }
    {
        let (kept, live) = (self.kept.size(), now.size());
        let shared = kept.min(live);
        let mut count = kept.max(live) - shared;
        for page in 0..shared {
            if !is_same_page(self.kept.bytes(), now.bytes(), page as usize) {
                count += 1;
            }
        }
        count
    }
}
