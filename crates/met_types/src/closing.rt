//! A graph is closed: each type gets its head, whose parts are types of the graph.
ghost use Rattle.std.specs.Prelude.{◌≡◌, ◌<◌, ◌≤◌, ◌+◌, List, length, OnOk, IfErr};
ghost use Rattle.mo_types.specs.Graph.{total};
ghost use Rattle.mo_types.specs.Layout.{entries};
ghost use Rattle.type_definitions.specs.Definitions.{Stand};
ghost use Rattle.type_definitions.specs.Outcomes.{AreOutcomes};
ghost use Rattle.type_definitions.specs.Tables.{Grows};
ghost use Rattle.typing_rules.specs.Terms.{Term};
ghost use Rattle.met_types.specs.Closing.{Covers, Formed, Keeps};
ghost use Rattle.met_types.specs.Faults.{IfTooMany};
ghost use Rattle.met_types.specs.Overflowing.{Given, Overflows, Waits};

use crate::nodes::{parts_of, typed_node};
use crate::numbering::number_parts;
use crate::{MeetFault, Reached};
use mo_types::{Node, TypeGraph};
use type_definitions::{Definitions, Outcome, head};
use type_terms::{TermId, Terms};

/// Gives the type of a term its head.
fn give(reached: &Reached, graph: &mut TypeGraph, own: TermId, node: Node) -> Result<(), MeetFault>
    requires { Waits reached.now graph.old own }
    ensures ok { OnOk result (Given reached.now graph.old own node graph.new) }
    ensures full { IfErr result (λ fault. IfTooMany fault (65536 < total graph.old + entries node)) }
{
    match reached.find(own) {
        Some(id) => {
            graph.define(id, node)?;
            Ok(())
        }
        None => Err(MeetFault::Memory),
    }
}

/// Gives the type of this number its head. Parts that are not there yet are added, and wait.
fn expand(
    terms: &mut Terms,
    definitions: &Definitions,
    outcomes: &[Outcome],
    reached: &mut Reached,
    graph: &mut TypeGraph,
    place: usize,
) -> Result<(), MeetFault>
    requires there { place < length reached.old }
    requires stand { Stand terms.old definitions.now }
    requires outcomes { AreOutcomes terms.old definitions.now outcomes.now }
    requires formed { Formed definitions.now terms.old graph.old reached.old place }
    ensures grows { OnOk result (Grows terms.old terms.new) }
    ensures left { IfErr result (λ fault. IfTooMany fault (Grows terms.old terms.new)) }
    ensures keeps { OnOk result (Keeps reached.old reached.new) }
    ensures formed { OnOk result (Formed definitions.now terms.new graph.new reached.new (place + 1)) }
    ensures covers { OnOk result ((met : List Term) → Covers definitions.now met terms.old reached.old → Covers definitions.now met terms.new reached.new) }
    ensures full { IfErr result (λ fault. IfTooMany fault ((met : List Term) → Covers definitions.now met terms.old reached.old → Overflows definitions.now met terms.new)) }
{
    let alloc = terms.allocator();
    let own = reached.as_slice()[place];
    let node = head(terms, definitions, outcomes, own)?;
    let parts = parts_of(alloc, &node)?;
    let ids = number_parts(alloc, reached, graph, parts.as_slice())?;
    let made = typed_node(alloc, &node, ids.as_slice())?;
    give(reached, graph, own, made)
}

/// Gives all types their heads that wait for them, from this number on.
pub(crate) fn close(
    terms: &mut Terms,
    definitions: &Definitions,
    outcomes: &[Outcome],
    reached: &mut Reached,
    graph: &mut TypeGraph,
    start: usize,
) -> Result<(), MeetFault>
    requires there { start ≤ length reached.old }
    requires stand { Stand terms.old definitions.now }
    requires outcomes { AreOutcomes terms.old definitions.now outcomes.now }
    requires formed { Formed definitions.now terms.old graph.old reached.old start }
    ensures grows { OnOk result (Grows terms.old terms.new) }
    ensures left { IfErr result (λ fault. IfTooMany fault (Grows terms.old terms.new)) }
    ensures keeps { OnOk result (Keeps reached.old reached.new) }
    ensures formed { OnOk result (Formed definitions.now terms.new graph.new reached.new (length reached.new)) }
    ensures covers { OnOk result ((met : List Term) → Covers definitions.now met terms.old reached.old → Covers definitions.now met terms.new reached.new) }
    ensures full { IfErr result (λ fault. IfTooMany fault ((met : List Term) → Covers definitions.now met terms.old reached.old → Overflows definitions.now met terms.new)) }
{
    let mut place = start;
    for _turn in 0..u32::MAX {
        if place >= reached.as_slice().len() {
            return Ok(());
        }
        expand(terms, definitions, outcomes, reached, graph, place)?;
        place += 1;
    }
    Err(MeetFault::Memory)
}
