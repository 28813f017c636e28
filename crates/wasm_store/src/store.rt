//! The store of an instance.
ghost use Rattle.std.specs.Prelude.{◌≡◌, ◌+◌, ◌<◌, ◌≤◌, ◌++◌, ◌∷◌, [], length, map, IfOk, IsTrue, None, Some, slice_get, if◌then◌else◌};
ghost use Rattle.wasm_tree.specs.Load.{first_size, constant, blank};

use crate::Room;
use crate::constant::constant;
use crate::segments::{put_elements, put_segments};
use page_store::KeptPages;
use std::alloc::{AllocError, Global};
use thiserror::Error;
use wasm_tree::{Global as GlobalPart, Limits, Module};

/// The most globals of a module.
pub const MOST_GLOBALS: usize = 10_000;

/// The most entries of a table.
pub const MOST_ENTRIES: usize = 100_000;

/// Why a module is not loaded.
#[derive(Clone, Copy, Debug, PartialEq, Eq, Error)]
pub enum LoadTrap {
    /// The first memory is above the limit of pages.
    #[error("the first memory is above the limit of pages")]
    Heap,
    /// A segment does not fit into the memory or the table.
    #[error("a segment does not fit into the memory or the table")]
    Bounds,
}

/// Memory, globals and table as they stand, and as the last commit kept them. A global is its bits.
#[derive(Drop)]
pub struct Store {
    pub memory: KeptPages,
    pub globals: Room<u64, MOST_GLOBALS>,
    pub table: Room<Option<u32>, MOST_ENTRIES>,
    kept_globals: Room<u64, MOST_GLOBALS>,
    kept_table: Room<Option<u32>, MOST_ENTRIES>,
}

impl Store {
    ghost use Rattle.wasm_tree.specs.Load.{first_size, filled, with_segments, with_elements, Loaded, OutOfBounds};
    ghost use Rattle.wasm_store.specs.Loading.{Answers, load_within, nothing};
    ghost use Rattle.wasm_store.specs.Standing.{standing, kept};
    ghost use Rattle.wasm_tree.specs.Exec.{entry};

    /// A store without a module, whose memory may have so many pages. All memory is taken here.
    pub fn new(alloc: Global, pages: u32) -> Result<Self, AllocError>
        requires { pages ≤ 65536 }
        ensures limit { IfOk result (λ store. store.memory.limit ≡ pages) }
        ensures empty { IfOk result (λ store. standing store ≡ nothing) }
        ensures kept { IfOk result (λ store. kept store ≡ nothing) }
    {
        Ok(Store {
            memory: KeptPages::new(alloc, pages)?,
            globals: Room::new(alloc)?,
            table: Room::new(alloc)?,
            kept_globals: Room::new(alloc)?,
            kept_table: Room::new(alloc)?,
        })
    }

    /// Loads a module of so many globals and entries as a valid one may have. After a refusal no module is there.
    pub fn load(&mut self, module: &Module) -> Result<(), LoadTrap>
        requires globals { length «module».now.globals ≤ 10000 }
        requires entries { first_size «module».now.tables ≤ 100000 }
        ensures answer { Answers (load_within self.old.memory.limit «module».now) result (standing self.new) }
        ensures kept { kept self.new ≡ kept self.old }
        ensures limit { self.new.memory.limit ≡ self.old.memory.limit }
    {
        self.clear();
        if self
            .memory
            .grow(first_size(module.memories.as_slice()))
            .is_none()
        {
            return Err(LoadTrap::Heap);
        }
        put_constants(module.globals.as_slice(), &mut self.globals);
        put_blanks(first_size(module.tables.as_slice()), &mut self.table);
        if !self.put_all(module) {
            self.clear();
            return Err(LoadTrap::Bounds);
        }
        Ok(())
    }

    // Takes the module away.
    fn clear(&mut self)
        ensures standing { standing self.new ≡ nothing }
        ensures kept { kept self.new ≡ kept self.old }
        ensures limit { self.new.memory.limit ≡ self.old.memory.limit }
    {
        self.memory.clear();
        self.globals.clear();
        self.table.clear();
    }

    // Writes all segments, or gives false where one does not fit.
    fn put_all(&mut self, module: &Module) -> bool
        ensures fits { filled self.old.globals (with_segments «module».now.segments self.old.memory.bytes) (with_elements «module».now.elements self.old.table) ≡ (if result then Loaded (standing self.new) else OutOfBounds) }
        ensures kept { kept self.new ≡ kept self.old }
        ensures limit { self.new.memory.limit ≡ self.old.memory.limit }
    {
        put_segments(module.segments.as_slice(), &mut self.memory)
            && put_elements(module.elements.as_slice(), self.table.as_mut_slice())
    }

    /// The function at this place of the table. `None` where the place is past the end, or its entry empty.
    pub fn table_entry(&self, place: u32) -> Option<u32>
        ensures { result ≡ entry (slice_get self.now.table place) }
    {
        self.table.as_slice().get(place as usize).copied().flatten()
    }

    /// Keeps memory, globals and table as they stand.
    pub fn commit(&mut self)
        ensures standing { standing self.new ≡ standing self.old }
        ensures kept { kept self.new ≡ standing self.old }
        ensures limit { self.new.memory.limit ≡ self.old.memory.limit }
    {
        self.memory.commit();
        self.kept_globals.copy_from(&self.globals);
        self.kept_table.copy_from(&self.table);
    }

    /// Puts back what the last commit kept; before the first one, a store without a module.
    pub fn restore(&mut self)
        ensures standing { standing self.new ≡ kept self.old }
        ensures kept { kept self.new ≡ kept self.old }
        ensures limit { self.new.memory.limit ≡ self.old.memory.limit }
    {
        self.memory.restore();
        self.globals.copy_from(&self.kept_globals);
        self.table.copy_from(&self.kept_table);
    }
}

// The least size of what is there first, in pages or entries.
pub(crate) fn first_size(sizes: &[Limits]) -> u32
    ensures { result ≡ first_size sizes.now }
{
    match sizes {
        [first, ..] => first.min,
        [] => 0,
    }
}

// Adds the bits of each initialiser.
fn put_constants(parts: &[GlobalPart], globals: &mut Room<u64, MOST_GLOBALS>)
    requires empty { globals.old ≡ [] }
    requires few { length parts.now ≤ 10000 }
    ensures { globals.new ≡ map (λ g. constant g.init) parts.now }
{
    for part in parts {
        globals.push(constant(&part.init));
    }
}

// Adds so many empty entries.
fn put_blanks(count: u32, table: &mut Room<Option<u32>, MOST_ENTRIES>)
    requires empty { table.old ≡ [] }
    requires few { count ≤ 100000 }
    ensures { table.new ≡ blank count None }
{
    for _ in 0..count {
        table.push(None);
    }
}
