//! A table of texts.
ghost use Rattle.std.specs.Prelude.{◌≡◌, ◌+◌, [], IfSome, OnOk};
ghost use Rattle.heap_layout.specs.Blocks.{text_words};
ghost use Rattle.low_emit.specs.Texts.{place_from, with_text, words_from};

use indexmap::IndexMap;
use mo_num::{Bytes, Memory};
use std::alloc::Global;
use std::marker::Model;

/// Texts in the order of first sight, each once, which contracts see as their list. The word in which the block of a text begins is
/// found in constant time.
pub struct TextTable {
    alloc: Global,
    places: IndexMap<Vec<u8>, u32>,
    end: u32,
}

impl Drop for TextTable {
    fn drop(self) {
        let TextTable {
            alloc: _alloc,
            places: _places,
            end: _end,
        } = self;
    }
}

impl Model for TextTable {
    ghost use Rattle.std.specs.Prelude.{List, ℕ, map};
    ghost use Rattle.text_table.specs.Placed.{ArePlaced};

    ghost Value = { List (List ℕ) };

    ghost view = { λ t. map (λ e. e.0.items) t.places.entries };

    ghost invariant = { λ t. ArePlaced 1 (map (λ e. (e.0.items, e.1)) t.places.entries) t.end };
}

impl TextTable {
    /// No text. Takes no memory.
    pub fn new(alloc: Global) -> TextTable
        ensures { result ≡ [] }
    {
        TextTable {
            alloc,
            places: IndexMap::new(alloc),
            end: 1,
        }
    }

    /// Adds the text, if it is not there yet.
    pub fn add(&mut self, text: &[u8]) -> Result<(), Memory>
        ensures { OnOk result (self.new ≡ with_text text.now self.old) }
    {
        if self.places.contains_key(text) {
            return Ok(());
        }
        let Some(end) = end_behind(self.end, text) else {
            return Err(Memory);
        };
        let key = Vec::from_slice(self.alloc, text)?;
        self.places.insert(key, self.end)?;
        self.end = end;
        Ok(())
    }

    /// The word in which the block of the text begins; that of a text that is not there is 0.
    pub fn place(&self, text: &[u8]) -> u32
        ensures { result ≡ place_from 1 text.now self.now }
    {
        match self.places.get(text) {
            Some(place) => *place,
            None => 0,
        }
    }

    /// The word behind all blocks.
    pub fn end(&self) -> u32
        ensures { result ≡ words_from 1 self.now }
    {
        self.end
    }
}

// The word behind the block of a text that begins in this word.
fn end_behind(place: u32, text: &[u8]) -> Option<u32>
    ensures { IfSome result (λ end. end ≡ place + text_words text.now) }
{
    let Ok(bytes) = u32::try_from(text.len()) else {
        return None;
    };
    let words = 1 + bytes / 8 + if bytes % 8 == 0 { 0 } else { 1 };
    place.checked_add(words)
}
