//! The types of a graph as the table of a header.
ghost use Rattle.std.specs.Prelude.{◌≡◌, map, IfOk};
ghost use Rattle.mo_types.specs.Graph.{head_at};
ghost use Rattle.candid_keep.specs.Refs.{entries_of, graph_ref, IsTableBy};

use crate::wires::wire;
use candid_header::Header;
use candid_types::Shapes;
use mo_num::{Memory, Sequence};
use mo_types::{TableRef, TypeGraph, TypeId, Wire};
use std::alloc::Global;

// The heads of the types of the graph, which stand behind those of the types without parts.
fn entries(alloc: Global, shapes: &Shapes) -> Result<Sequence<Wire<TableRef>>, Memory>
    ensures { IfOk result (λ table. table ≡ entries_of shapes.now) }
{
    let mut table = Sequence::new(alloc);
    for number in 18..shapes.len() {
        // It is there: the number is below their count.
        let Some(shape) = shapes.get(number) else {
            return Err(Memory);
        };
        let head = wire(alloc, shape)?;
        table.push(head)?;
    }
    Ok(table)
}

// Types of the graph by their entries.
fn arguments(alloc: Global, ids: &[TypeId]) -> Result<Sequence<TableRef>, Memory>
    ensures { IfOk result (λ made. made ≡ map graph_ref ids.now) }
{
    let mut made = Sequence::new(alloc);
    for id in ids {
        made.push(TableRef::At(id.index()))?;
    }
    Ok(made)
}

/// The header of these types of a graph, with an entry for each of its types. Takes time and memory by the fields and parts of
/// the graph.
pub(crate) fn header_of(alloc: Global, types: &TypeGraph, ids: &[TypeId]) -> Result<Header, Memory>
    ensures table { IfOk result (λ header. IsTableBy (head_at types.now) header.table) }
    ensures arguments { IfOk result (λ header. header.arguments ≡ map graph_ref ids.now) }
{
    let shapes = Shapes::new(alloc, types)?;
    let table = entries(alloc, &shapes)?;
    let arguments = arguments(alloc, ids)?;
    Ok(Header { table, arguments })
}
