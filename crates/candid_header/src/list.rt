//! Lists of a header: so much memory is taken as was read, whatever their count says.
ghost use Rattle.std.specs.Prelude.{◌≡◌, None};
ghost use Rattle.mo_types.specs.Wire.{name_before};
ghost use Rattle.exact_reading.specs.Reading.{Tells, Gives};
ghost use Rattle.candid_header.specs.Reading.{many, list_at};
ghost use Rattle.candid_header.specs.Table.{ref_item, no_state, field_at, id_of, id_at, rises, method_at, name_of, last_name, name_rises, method_name_at, bytes_at};

use crate::fault::{Fault, Stop};
use crate::number::{read_slice, read_u32};
use crate::reference::read_ref;
use mo_num::{Bytes, Sequence};
use mo_types::{Entry, Method, TableRef};
use std::alloc::Global;

fn read_one_ref(entries: u32, bytes: &[u8]) -> Result<(TableRef, &[u8]), Stop>
    ensures { Gives (λ x. (x.0, x.1.now)) result (ref_item entries None bytes.now) }
{
    Ok(read_ref(entries, bytes)?)
}

fn read_so_many_refs(
    alloc: Global,
    entries: u32,
    number: u32,
    bytes: &[u8],
) -> Result<(Sequence<TableRef>, &[u8]), Stop>
    ensures { Gives (λ x. (x.0, x.1.now)) result (many (ref_item entries) no_state number None bytes.now) }
{
    let mut refs = Sequence::new(alloc);
    let mut rest = bytes;
    for _ in 0..number {
        let (next, after) = read_one_ref(entries, rest)?;
        refs.push(next)?;
        rest = after;
    }
    Ok((refs, rest))
}

/// Types behind their number.
pub fn read_refs(
    alloc: Global,
    entries: u32,
    bytes: &[u8],
) -> Result<(Sequence<TableRef>, &[u8]), Stop>
    ensures { Gives (λ x. (x.0, x.1.now)) result (list_at (ref_item entries) no_state bytes.now) }
{
    let (number, rest) = read_u32(Fault::BadTable, bytes)?;
    read_so_many_refs(alloc, entries, number, rest)
}

/// Whether an id is greater than the one before it, if there is one.
fn is_rising(previous: Option<u32>, id: u32) -> bool
    ensures { result ≡ rises previous id }
{
    match previous {
        Some(previous) => previous < id,
        None => true,
    }
}

fn read_id(previous: Option<u32>, bytes: &[u8]) -> Result<(u32, &[u8]), Fault>
    ensures { Tells (λ x. (x.0, x.1.now)) result (id_at previous bytes.now) }
{
    let (id, rest) = read_u32(Fault::BadTable, bytes)?;
    if is_rising(previous, id) {
        Ok((id, rest))
    } else {
        Err(Fault::BadTable)
    }
}

#[tactic(auto, unfolding(crate::specs::Table::field_at))]
fn read_field(
    entries: u32,
    previous: Option<u32>,
    bytes: &[u8],
) -> Result<(Entry<TableRef>, &[u8]), Stop>
    ensures { Gives (λ x. (x.0, x.1.now)) result (field_at entries previous bytes.now) }
{
    let (id, rest) = read_id(previous, bytes)?;
    let (part, rest) = read_ref(entries, rest)?;
    Ok((Entry { id, part }, rest))
}

fn read_so_many_fields(
    alloc: Global,
    entries: u32,
    number: u32,
    bytes: &[u8],
) -> Result<(Sequence<Entry<TableRef>>, &[u8]), Stop>
    ensures { Gives (λ x. (x.0, x.1.now)) result (many (field_at entries) id_of number None bytes.now) }
{
    let mut fields = Sequence::new(alloc);
    let mut rest = bytes;
    let mut previous = None;
    for _ in 0..number {
        let (next, after) = read_field(entries, previous, rest)?;
        previous = Some(next.id);
        fields.push(next)?;
        rest = after;
    }
    Ok((fields, rest))
}

/// The parts of a record or a variant behind their number, in the rising order of their ids.
pub fn read_fields(
    alloc: Global,
    entries: u32,
    bytes: &[u8],
) -> Result<(Sequence<Entry<TableRef>>, &[u8]), Stop>
    ensures { Gives (λ x. (x.0, x.1.now)) result (list_at (field_at entries) id_of bytes.now) }
{
    let (number, rest) = read_u32(Fault::BadTable, bytes)?;
    read_so_many_fields(alloc, entries, number, rest)
}

/// Whether a name comes after the last one of these, in the order of their bytes.
fn is_name_rising(before: &[Method<TableRef>], name: &[u8]) -> bool
    ensures { result ≡ name_rises (last_name before.now) name.now }
{
    match before.last() {
        Some(last) => is_before(last.name.as_slice(), name),
        None => true,
    }
}

fn is_before(left: &[u8], right: &[u8]) -> bool
    ensures { result ≡ name_before left.now right.now }
{
    left < right
}

fn read_name<'a>(
    before: &[Method<TableRef>],
    bytes: &'a [u8],
) -> Result<(&'a [u8], &'a [u8]), Fault>
    ensures { Tells (λ x. (x.0.now, x.1.now)) result (method_name_at (last_name before.now) bytes.now) }
{
    let (name, rest) = read_slice(Fault::BadTable, bytes)?;
    if is_name_rising(before, name) {
        Ok((name, rest))
    } else {
        Err(Fault::BadTable)
    }
}

#[tactic(auto, unfolding(crate::specs::Table::method_at))]
fn read_method<'a>(
    alloc: Global,
    entries: u32,
    before: &[Method<TableRef>],
    bytes: &'a [u8],
) -> Result<(Method<TableRef>, &'a [u8]), Stop>
    ensures { Gives (λ x. (x.0, x.1.now)) result (method_at entries (last_name before.now) bytes.now) }
{
    let (name, rest) = read_name(before, bytes)?;
    let (part, rest) = read_ref(entries, rest)?;
    let name = Bytes::from_slice(alloc, name)?;
    Ok((Method { name, part }, rest))
}

fn read_so_many_methods(
    alloc: Global,
    entries: u32,
    number: u32,
    bytes: &[u8],
) -> Result<(Sequence<Method<TableRef>>, &[u8]), Stop>
    ensures { Gives (λ x. (x.0, x.1.now)) result (many (method_at entries) name_of number None bytes.now) }
{
    let mut methods = Sequence::new(alloc);
    let mut rest = bytes;
    for _ in 0..number {
        let (next, after) = read_method(alloc, entries, methods.as_slice(), rest)?;
        methods.push(next)?;
        rest = after;
    }
    Ok((methods, rest))
}

/// The methods of a service behind their number, in the rising order of their names.
pub fn read_methods(
    alloc: Global,
    entries: u32,
    bytes: &[u8],
) -> Result<(Sequence<Method<TableRef>>, &[u8]), Stop>
    ensures { Gives (λ x. (x.0, x.1.now)) result (list_at (method_at entries) name_of bytes.now) }
{
    let (number, rest) = read_u32(Fault::BadTable, bytes)?;
    read_so_many_methods(alloc, entries, number, rest)
}

/// Bytes behind their number, as a copy.
pub fn read_bytes(alloc: Global, bytes: &[u8]) -> Result<(Bytes, &[u8]), Stop>
    ensures { Gives (λ x. (x.0, x.1.now)) result (bytes_at bytes.now) }
{
    exact_reading::read_bytes(alloc, Fault::Short, Fault::BadTable, bytes)
}
