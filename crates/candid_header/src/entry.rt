//! Entries of the table.
ghost use Rattle.std.specs.Prelude.{◌≡◌};
ghost use Rattle.exact_reading.specs.Reading.{Gives};
ghost use Rattle.candid_header.specs.Table.{func_at, entry_by, entry_at};

use crate::fault::{Fault, Stop};
use crate::list::{read_bytes, read_fields, read_methods, read_refs};
use crate::reference::read_ref;
use mo_types::{TableRef, Wire};
use std::alloc::Global;

#[tactic(auto, unfolding(crate::specs::Table::func_at))]
fn read_func(alloc: Global, entries: u32, bytes: &[u8]) -> Result<(Wire<TableRef>, &[u8]), Stop>
    ensures { Gives (λ x. (x.0, x.1.now)) result (func_at entries bytes.now) }
{
    let (parameters, rest) = read_refs(alloc, entries, bytes)?;
    let (results, rest) = read_refs(alloc, entries, rest)?;
    let (annotations, rest) = read_bytes(alloc, rest)?;
    Ok((Wire::Func(parameters, results, annotations), rest))
}

fn read_coded(
    alloc: Global,
    entries: u32,
    code: u8,
    bytes: &[u8],
) -> Result<(Wire<TableRef>, &[u8]), Stop>
    ensures { Gives (λ x. (x.0, x.1.now)) result (entry_by entries code bytes.now) }
{
    match code {
        0x6e => {
            let (part, rest) = read_ref(entries, bytes)?;
            Ok((Wire::Opt(part), rest))
        }
        0x6d => {
            let (part, rest) = read_ref(entries, bytes)?;
            Ok((Wire::Vec(part), rest))
        }
        0x6c => {
            let (parts, rest) = read_fields(alloc, entries, bytes)?;
            Ok((Wire::Record(parts), rest))
        }
        0x6b => {
            let (parts, rest) = read_fields(alloc, entries, bytes)?;
            Ok((Wire::Variant(parts), rest))
        }
        0x6a => read_func(alloc, entries, bytes),
        0x69 => {
            let (methods, rest) = read_methods(alloc, entries, bytes)?;
            Ok((Wire::Service(methods), rest))
        }
        _ => Err(Stop::Fault(Fault::BadTable)),
    }
}

/// An entry of a table of so many.
#[tactic(auto, unfolding(crate::specs::Table::entry_at))]
pub fn read_entry(
    alloc: Global,
    entries: u32,
    bytes: &[u8],
) -> Result<(Wire<TableRef>, &[u8]), Stop>
    ensures { Gives (λ x. (x.0, x.1.now)) result (entry_at entries bytes.now) }
{
    match bytes {
        [] => Err(Stop::Fault(Fault::Short)),
        [code, rest @ ..] => read_coded(alloc, entries, *code, rest),
    }
}
