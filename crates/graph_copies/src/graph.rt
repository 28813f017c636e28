//! Graphs.
ghost use Rattle.std.specs.Prelude.{◌≡◌, ◌++◌, ◌∷◌, [], map, slice_get, IfOk, OnOk};
ghost use Rattle.mo_types.specs.Graph.{head_at, node_of, node_of_slot};

use crate::node::node_again;
use mo_num::Memory;
use mo_types::{TypeGraph, TypesFault};
use std::alloc::Global;

// A type more, with the node of this number of the other graph. A graph that has room for all types of another one has room for
// this.
fn add_type(
    alloc: Global,
    graph: &TypeGraph,
    number: usize,
    made: &mut TypeGraph,
) -> Result<(), Memory>
    ensures { OnOk result (map node_of made.new ≡ map node_of made.old ++ node_of_slot (slice_get graph.now number) ∷ []) }
{
    let id = match made.fresh() {
        Ok(id) => id,
        Err(_) => return Err(Memory),
    };
    let Some(node) = graph.get_index(number) else {
        return Ok(());
    };
    match made.define(id, node_again(alloc, node)?) {
        Ok(()) => Ok(()),
        Err(_) => Err(Memory),
    }
}

/// The graph again: each type has the same number and the same form. Want of memory alone makes none.
pub fn graph_again(alloc: Global, graph: &TypeGraph) -> Result<TypeGraph, Memory>
    ensures { IfOk result (λ made. head_at made ≡ head_at graph.now) }
{
    let mut made = TypeGraph::new(alloc);
    for number in 0..graph.len() {
        add_type(alloc, graph, number, &mut made)?;
    }
    Ok(made)
}
