//! Executions of an actor's methods, and of what waited.
ghost use Rattle.std.specs.Prelude.{IfOk};
ghost use Rattle.value_arena.specs.Growth.{AreWithin};
ghost use Rattle.arena_equality.specs.Own.{AreOwnLabels};
ghost use Rattle.arena_executions.specs.Giving.{IsGivenWithin};
ghost use Rattle.arena_actors.specs.States.{IsBodyWithin, IsSound};
ghost use Rattle.arena_outcomes.specs.Running.{IsMethod, IsResumed};

use crate::concluding::{begun, concluded};
use crate::ran::{Begun, Ran};
use arena_actors::{Actor, Body, around_of};
use arena_bodies::{Entered, run_method, run_resumed};
use arena_executions::Given;
use mo_num::{Memory, Principal, Sequence};
use mo_types::{TypeGraph, TypeId};
use std::alloc::Global;

/// The execution of a method with results of these types, for so many turns at most.
pub fn run_entered<'a>(
    alloc: Global,
    actor: Actor<'a>,
    types: &TypeGraph,
    own: &Principal,
    results: Sequence<TypeId>,
    entered: &Entered,
    turns: u64,
) -> Result<Ran<'a>, Memory>
    requires labels { AreOwnLabels types.now }
    requires sound { IsSound actor }
    requires arguments { AreWithin actor.arena entered.now.arguments.now }
    ensures { IfOk result (λ r. IsMethod types.now own.now results entered.now.place entered.now.caller.now entered.now.arguments.now turns actor.entry r) }
{
    let around = around_of(alloc, own, actor.first, actor.made.as_slice())?;
    let exports = actor.exports;
    let Begun {
        rest,
        execution: first,
    } = begun(alloc, actor, Vec::new(alloc));
    let mut execution = first;
    let reached = run_method(
        alloc,
        &mut execution,
        types,
        &around,
        exports,
        results.as_slice(),
        entered,
        turns,
    )?;
    Ok(concluded(results, rest, execution, reached))
}

/// The execution of what waited, which is given this, for so many turns at most.
pub fn run_waiting<'a>(
    alloc: Global,
    actor: Actor<'a>,
    types: &TypeGraph,
    own: &Principal,
    given: Given,
    body: Body<'a>,
    turns: u64,
) -> Result<Ran<'a>, Memory>
    requires labels { AreOwnLabels types.now }
    requires sound { IsSound actor }
    requires given { IsGivenWithin actor.arena given }
    requires body { IsBodyWithin actor.arena body }
    ensures { IfOk result (λ r. IsResumed types.now own.now given body.entry turns actor.entry r) }
{
    let around = around_of(alloc, own, actor.first, actor.made.as_slice())?;
    let Body {
        nodes: _nodes,
        results,
        focus,
        frames,
    } = body;
    let Begun {
        rest,
        execution: first,
    } = begun(alloc, actor, frames);
    let mut execution = first;
    let reached = run_resumed(
        alloc,
        &mut execution,
        types,
        &around,
        results.as_slice(),
        given,
        focus,
        turns,
    )?;
    Ok(concluded(results, rest, execution, reached))
}
