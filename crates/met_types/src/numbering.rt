//! Types of a graph for the parts of a head.
ghost use Rattle.std.specs.Prelude.{◌≡◌, ◌∷◌, [], IfOk, IfErr, length, slice_get, Some};
ghost use Rattle.mo_types.specs.Graph.{Fits};
ghost use Rattle.met_types.specs.Closing.{AreNumbers, Different, Extends, NoRoom};
ghost use Rattle.met_types.specs.Faults.{IfTooMany};

use crate::{MeetFault, Reached};
use mo_types::{TypeGraph, TypeId};
use std::alloc::Global;
use type_terms::TermId;

/// The type of the graph for a term: the one that it has, or a new one, which waits for its head.
pub(crate) fn number_of(
    reached: &mut Reached,
    graph: &mut TypeGraph,
    part: TermId,
) -> Result<TypeId, MeetFault>
    requires many { length reached.old ≡ length graph.old }
    requires different { Different reached.old }
    requires fits { Fits graph.old }
    ensures there { IfOk result (λ id. slice_get reached.new id.index ≡ Some part) }
    ensures ok { IfOk result (λ id. Extends (part ∷ []) reached.old reached.new graph.old graph.new) }
    ensures full { IfErr result (λ fault. IfTooMany fault (NoRoom (part ∷ []) reached.new × (reached.new ≡ reached.old) × (graph.new ≡ graph.old))) }
{
    if let Some(id) = reached.find(part) {
        return Ok(id);
    }
    let id = graph.fresh()?;
    reached.push(part, id)?;
    Ok(id)
}

/// Those for several terms.
pub(crate) fn number_parts(
    alloc: Global,
    reached: &mut Reached,
    graph: &mut TypeGraph,
    parts: &[TermId],
) -> Result<Vec<TypeId>, MeetFault>
    requires many { length reached.old ≡ length graph.old }
    requires different { Different reached.old }
    requires fits { Fits graph.old }
    ensures there { IfOk result (λ ids. AreNumbers reached.new parts.now ids.items) }
    ensures ok { IfOk result (λ ids. Extends parts.now reached.old reached.new graph.old graph.new) }
    ensures full { IfErr result (λ fault. IfTooMany fault (NoRoom parts.now reached.new × Extends parts.now reached.old reached.new graph.old graph.new)) }
{
    let mut made = Vec::with_capacity(alloc, parts.len())?;
    for part in parts {
        made.push(number_of(reached, graph, *part)?)?;
    }
    Ok(made)
}
