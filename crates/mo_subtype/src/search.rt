//! The search for a pair that the rules exclude.
ghost use Rattle.std.specs.Prelude.{◌≡◌, ◌<◌, ◌≤◌, length, slice_get, IfOk, OnOk, [], ◌∷◌};
ghost use Rattle.indexmap.specs.IndexSet.{insert_all};
ghost use Rattle.mo_types.specs.Graph.{head_at};
ghost use Rattle.mo_types.specs.Sub.{Sub};
ghost use Rattle.mo_subtype.specs.Pairs.{same_pair};
ghost use Rattle.mo_subtype.specs.Questions.{asked, pair};
ghost use Rattle.mo_subtype.specs.Certificate.{Asked, Certified, Led, Turned, bottom_node};

use crate::ask::ask;
use crate::{Pair, Pairs};
use indexmap::IndexSet;
use mo_num::Memory;
use mo_types::{Node, TypeGraph, TypeId};
use std::alloc::Global;

/// An answer on subtyping.
#[derive(Drop)]
pub enum Verdict {
    /// A list of pairs that holds the question, and of whose pairs the rules ask for no others.
    Yes(Pairs),
    /// The least depth at which the types are not subtypes.
    No(u32),
}

/// The head of a type.
fn head<'a>(types: &'a TypeGraph, id: TypeId, bottom: &'a Node) -> &'a Node
    requires { bottom.now ≡ bottom_node }
    ensures { result.now ≡ head_at types.now id }
{
    match types.get(id) {
        Some(node) => node,
        None => bottom,
    }
}

/// Puts the pairs that are not there yet.
fn add_all(pairs: &mut IndexSet<Pair>, more: &[Pair]) -> Result<(), Memory>
    ensures { OnOk result (pairs.new.keys ≡ insert_all same_pair pairs.old.keys more.now) }
{
    for pair in more {
        pairs.insert(*pair)?;
    }
    Ok(())
}

/// One question, whose questions are put where they are not there yet. False where it is ruled out.
fn expand(
    alloc: Global,
    types: &TypeGraph,
    pair: Pair,
    pairs: &mut IndexSet<Pair>,
) -> Result<bool, Memory>
    ensures { IfOk result (λ yes. Asked (asked (head_at types.now) pair) yes pairs.old.keys pairs.new.keys) }
{
    let bottom = Node::Bottom;
    let low = head(types, pair.low, &bottom);
    let high = head(types, pair.high, &bottom);
    let mut more = Vec::new(alloc);
    if !ask(low, high, pair.high, &mut more)? {
        return Ok(false);
    }
    add_all(pairs, more.as_slice())?;
    Ok(true)
}

/// One round: the pairs from a place to the end. False where one of them is ruled out.
fn turn(
    alloc: Global,
    types: &TypeGraph,
    pairs: &mut IndexSet<Pair>,
    start: usize,
    end: usize,
) -> Result<bool, Memory>
    requires order { start ≤ end }
    requires whole { end ≡ length pairs.old.keys }
    requires led { Led (head_at types.now) pairs.old.keys start }
    ensures { IfOk result (λ yes. Turned (head_at types.now) yes pairs.old.keys pairs.new.keys) }
{
    for place in start..end {
        let pair = match pairs.get_index(place) {
            Some(pair) => *pair,
            None => unreachable!(),
        };
        if !expand(alloc, types, pair, pairs)? {
            return Ok(false);
        }
    }
    Ok(true)
}

/// Whether `low` is a subtype of `high`: Motoko language manual, section "Subtyping". Takes expected time by the pairs
/// that the question leads to, each with as many steps as its two types have fields and parts, and memory by the pairs
/// and the fields of one type.
pub fn subtype(
    alloc: Global,
    types: &TypeGraph,
    low: TypeId,
    high: TypeId,
) -> Result<Verdict, Memory>
    ensures { IfOk result (λ verdict. Certified types.now low high verdict) }
{
    let mut pairs = IndexSet::new(alloc);
    pairs.insert(Pair { low, high })?;
    let mut start = 0;
    for depth in 0..u32::MAX {
        let end = pairs.len();
        if start == end {
            return Ok(Verdict::Yes(Pairs::from_set(pairs)));
        }
        if !turn(alloc, types, &mut pairs, start, end)? {
            return Ok(Verdict::No(depth + 1));
        }
        start = end;
    }
    Err(Memory)
}
