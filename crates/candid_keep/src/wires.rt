//! Heads of Candid types with references of a header.
ghost use Rattle.std.specs.Prelude.{◌≡◌, map, IfOk};
ghost use Rattle.mo_types.specs.Wire.{map_entry, map_method, map_wire};
ghost use Rattle.candid_keep.specs.Refs.{table_ref as placed};

use crate::numbers::table_ref;
use mo_num::{Bytes, Memory, Sequence};
use mo_types::{Entry, Method, TableRef, Wire};
use std::alloc::Global;

// References in the place of numbers.
fn refs(alloc: Global, numbers: &[usize]) -> Result<Sequence<TableRef>, Memory>
    ensures { IfOk result (λ made. made ≡ map placed numbers.now) }
{
    let mut made = Sequence::new(alloc);
    for number in numbers {
        made.push(table_ref(*number)?)?;
    }
    Ok(made)
}

fn entries(alloc: Global, numbers: &[Entry<usize>]) -> Result<Sequence<Entry<TableRef>>, Memory>
    ensures { IfOk result (λ made. made ≡ map (map_entry placed) numbers.now) }
{
    let mut made = Sequence::new(alloc);
    for entry in numbers {
        let part = table_ref(entry.part)?;
        made.push(Entry { id: entry.id, part })?;
    }
    Ok(made)
}

fn methods(alloc: Global, numbers: &[Method<usize>]) -> Result<Sequence<Method<TableRef>>, Memory>
    ensures { IfOk result (λ made. made ≡ map (map_method placed) numbers.now) }
{
    let mut made = Sequence::new(alloc);
    for method in numbers {
        let name = Bytes::from_slice(alloc, method.name.as_slice())?;
        let part = table_ref(method.part)?;
        made.push(Method { name, part })?;
    }
    Ok(made)
}

fn function(
    alloc: Global,
    parameters: &[usize],
    results: &[usize],
    notes: &Bytes,
) -> Result<Wire<TableRef>, Memory>
    ensures { IfOk result (λ made. made ≡ Wire.Func (map placed parameters.now) (map placed results.now) notes.now) }
{
    let parameters = refs(alloc, parameters)?;
    let results = refs(alloc, results)?;
    let notes = Bytes::from_slice(alloc, notes.as_slice())?;
    Ok(Wire::Func(parameters, results, notes))
}

/// The head with references in the place of numbers.
pub(crate) fn wire(alloc: Global, wire: &Wire<usize>) -> Result<Wire<TableRef>, Memory>
    ensures { IfOk result (λ made. made ≡ map_wire placed wire.now) }
{
    match wire {
        Wire::Simple(plain) => Ok(Wire::Simple(*plain)),
        Wire::Opt(part) => Ok(Wire::Opt(table_ref(*part)?)),
        Wire::Vec(part) => Ok(Wire::Vec(table_ref(*part)?)),
        Wire::Record(fields) => Ok(Wire::Record(entries(alloc, fields.as_slice())?)),
        Wire::Variant(tags) => Ok(Wire::Variant(entries(alloc, tags.as_slice())?)),
        Wire::Func(parameters, results, notes) => {
            function(alloc, parameters.as_slice(), results.as_slice(), notes)
        }
        Wire::Service(list) => Ok(Wire::Service(methods(alloc, list.as_slice())?)),
    }
}
