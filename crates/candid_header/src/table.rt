//! The table of types.
ghost use Rattle.std.specs.Prelude.{◌≡◌, None, ◌<◌, length, slice_get};
ghost use Rattle.mo_types.specs.Heads.{map_option};
ghost use Rattle.exact_reading.specs.Reading.{Tells, Gives};
ghost use Rattle.candid_header.specs.Reading.{many};
ghost use Rattle.candid_header.specs.Table.{entry_item, no_state, is_func, is_func_at, methods_of, have_functions, entries_at, are_functions, table_at};

use crate::entry::read_entry;
use crate::fault::{Fault, Stop};
use crate::number::read_u32;
use mo_num::Sequence;
use mo_types::{Method, TableRef, Wire};
use std::alloc::Global;

/// The most entries of a table.
const MOST_ENTRIES: u32 = 4_096;

fn read_one_entry(
    alloc: Global,
    entries: u32,
    bytes: &[u8],
) -> Result<(Wire<TableRef>, &[u8]), Stop>
    ensures { Gives (λ x. (x.0, x.1.now)) result (entry_item entries None bytes.now) }
{
    read_entry(alloc, entries, bytes)
}

fn read_so_many_entries(
    alloc: Global,
    number: u32,
    bytes: &[u8],
) -> Result<(Sequence<Wire<TableRef>>, &[u8]), Stop>
    ensures { Gives (λ x. (x.0, x.1.now)) result (many (entry_item number) no_state number None bytes.now) }
{
    let mut table = Sequence::new(alloc);
    let mut rest = bytes;
    for _ in 0..number {
        let (next, after) = read_one_entry(alloc, number, rest)?;
        table.push(next)?;
        rest = after;
    }
    Ok((table, rest))
}

/// Whether a type is a function.
fn is_function(table: &[Wire<TableRef>], part: TableRef) -> bool
    ensures { result ≡ is_func_at table.now part }
{
    match part {
        TableRef::Plainly(_) => false,
        TableRef::At(number) => match table.get(number as usize) {
            Some(entry) => is_function_type(entry),
            None => false,
        },
    }
}

fn is_function_type(entry: &Wire<TableRef>) -> bool
    ensures { result ≡ is_func entry.now }
{
    match entry {
        Wire::Func(_, _, _) => true,
        _ => false,
    }
}

/// The methods of a service, and none of other types.
fn methods(entry: &Wire<TableRef>) -> &[Method<TableRef>]
    ensures { result.now ≡ methods_of entry.now }
{
    match entry {
        Wire::Service(methods) => methods.as_slice(),
        _ => &[],
    }
}

fn has_functions(table: &[Wire<TableRef>], entry: &Wire<TableRef>) -> bool
    ensures { result ≡ have_functions table.now entry.now }
{
    methods(entry)
        .iter()
        .all(|method| is_function(table, method.part))
}

/// Whether the methods of each service are functions.
fn have_all_functions(table: &[Wire<TableRef>]) -> bool
    ensures { result ≡ are_functions table.now }
{
    table.iter().all(|entry| has_functions(table, entry))
}

#[tactic(auto, unfolding(crate::specs::Table::entries_at))]
fn read_entries(alloc: Global, bytes: &[u8]) -> Result<(Sequence<Wire<TableRef>>, &[u8]), Stop>
    ensures { Gives (λ x. (x.0, x.1.now)) result (entries_at bytes.now) }
{
    let (number, rest) = read_u32(Fault::BadTable, bytes)?;
    if MOST_ENTRIES < number {
        return Err(Stop::Fault(Fault::BadTable));
    }
    read_so_many_entries(alloc, number, rest)
}

/// The table. Whether methods are functions is known where it ends.
#[tactic(auto, unfolding(crate::specs::Table::table_at))]
pub fn read_table(alloc: Global, bytes: &[u8]) -> Result<(Sequence<Wire<TableRef>>, &[u8]), Stop>
    ensures { Gives (λ x. (x.0, x.1.now)) result (table_at bytes.now) }
{
    let (table, rest) = read_entries(alloc, bytes)?;
    if !have_all_functions(table.as_slice()) {
        return Err(Stop::Fault(Fault::BadTable));
    }
    Ok((table, rest))
}
