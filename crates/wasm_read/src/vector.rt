//! Vectors (WebAssembly Core 1.0, section 5.1.3): so much memory is taken as was read, whatever their count says.
ghost use Rattle.std.specs.Prelude.{◌≡◌, ℕ, List, Result};
ghost use Rattle.wasm_read.specs.declared.fault.Fault.{Fault};
ghost use Rattle.exact_reading.specs.Reading.{Gives};
ghost use Rattle.wasm_read.specs.Fields.{each_at, vector_at};

use crate::fault::Fault;
use crate::number::read_u32;
use exact_reading::Stop;
use mo_num::Sequence;
use std::alloc::Global;

/// How an item of a vector is read.
pub trait Item<T> {
    ghost at: { List ℕ → Result (T × List ℕ) Fault };

    /// The item at the front, and what comes after it.
    fn read_item(alloc: Global, bytes: &[u8]) -> Result<(T, &[u8]), Stop<Fault>>
        ensures { Gives (λ x. (x.0, x.1.now)) result (at bytes.now) };
}

fn read_each<T: Drop, I: Item<T>>(
    alloc: Global,
    count: u32,
    bytes: &[u8],
) -> Result<(Vec<T>, &[u8]), Stop<Fault>>
    ensures { Gives (λ x. (x.0.items, x.1.now)) result (each_at I.at count bytes.now) }
{
    let mut items = Vec::new(alloc);
    let mut rest = bytes;
    for _ in 0..count {
        let (item, left) = I::read_item(alloc, rest)?;
        items.push(item)?;
        rest = left;
    }
    Ok((items, rest))
}

/// A vector of items.
pub fn read_vector<T: Drop, I: Item<T>>(
    alloc: Global,
    bytes: &[u8],
) -> Result<(Sequence<T>, &[u8]), Stop<Fault>>
    ensures { Gives (λ x. (x.0, x.1.now)) result (vector_at I.at bytes.now) }
{
    let (count, rest) = read_u32(bytes)?;
    let (items, rest) = read_each::<T, I>(alloc, count, rest)?;
    Ok((Sequence::from_vec(items), rest))
}
