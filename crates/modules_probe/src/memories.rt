//! Memories of pages, and what is kept of them.
ghost use Rattle.std.specs.Prelude.{◌≡◌};

use crate::number::{number_of, short_number_of};
use mo_num::Bytes;
use page_store::{Committed, PAGE, Pages};
use probe_base::Stop;
use std::alloc::{AllocError, Global};

/// A memory and its committed copy.
#[derive(Drop)]
struct Both {
    pages: Pages,
    committed: Committed,
    ghost same: { committed.limit ≡ pages.limit },
}

impl Both {
    fn grow(&mut self, by: u32) -> Option<u32> {
        self.pages.grow(by)
    }

    fn write(&mut self, place: u64, byte: u8) {
        let _ = self.pages.write(place, &[byte]);
    }

    fn clear(&mut self) {
        self.pages.clear();
    }

    fn commit(&mut self) {
        self.committed.commit(&self.pages);
    }

    fn restore(&mut self) {
        self.committed.restore(&mut self.pages);
    }

    fn changed(&self) -> u32 {
        self.committed.changed(&self.pages)
    }
}

// Bytes that differ from one place to the next and from one seed to another.
fn fill(both: &mut Both, seed: u8) {
    let mut next = seed;
    for place in 0..both.pages.bytes().len() as u64 {
        both.write(place, next);
        next = next.wrapping_mul(5).wrapping_add(7);
    }
}

/// What a memory of this limit answers to each word: `grow N`, `fill SEED`, `put PLACE`, which puts a 0, `clear`, `commit`,
/// `restore`, `changed` and `sums`, which gives for each page the sum of its bytes, each times its place, modulo 2^32.
pub(crate) fn try_pages(alloc: Global, limit: &[u8], words: &[Bytes]) -> Result<String, Stop> {
    let limit = short_number_of(limit)?;
    if limit > 65_536 {
        return Err(Stop::Usage);
    }
    let mut both = Both {
        pages: Pages::new(alloc, limit)?,
        committed: Committed::new(alloc, limit)?,
    };
    let mut out = String::new(alloc);
    for word in words {
        try_word(alloc, &mut out, &mut both, word.as_slice())?;
    }
    Ok(out)
}

fn try_word(alloc: Global, out: &mut String, both: &mut Both, word: &[u8]) -> Result<(), Stop> {
    match word {
        b"clear" => both.clear(),
        b"commit" => both.commit(),
        b"restore" => both.restore(),
        b"changed" => put_changed(alloc, out, both.changed())?,
        b"sums" => put_sums(alloc, out, both.pages.bytes())?,
        [b'g', b'r', b'o', b'w', b' ', by @ ..] => {
            let size = both.grow(short_number_of(by)?);
            out.push_str(format!(in alloc; "{size:?}\n")?.as_str())?;
        }
        [b'f', b'i', b'l', b'l', b' ', seed @ ..] => {
            fill(both, (short_number_of(seed)? % 256) as u8);
        }
        [b'p', b'u', b't', b' ', place @ ..] => both.write(number_of(place)?, 0),
        _ => return Err(Stop::Usage),
    }
    Ok(())
}

fn put_changed(alloc: Global, out: &mut String, count: u32) -> Result<(), AllocError> {
    out.push_str(format!(in alloc; "{count} changed\n")?.as_str())
}

fn sum_of(bytes: &[u8]) -> u32 {
    let mut sum = 0u32;
    let mut place = 1u32;
    for byte in bytes {
        sum = sum.wrapping_add(place.wrapping_mul(u32::from(*byte)));
        place = place.wrapping_add(1);
    }
    sum
}

fn put_sums(alloc: Global, out: &mut String, bytes: &[u8]) -> Result<(), AllocError> {
    for page in bytes.chunks(PAGE) {
        let sum = sum_of(page);
        out.push_str(format!(in alloc; "{sum} ")?.as_str())?;
    }
    out.push('\n')
}
