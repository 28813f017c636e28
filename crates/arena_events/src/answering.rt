//! Answers to outgoing calls.
ghost use Rattle.std.specs.Prelude.{◌≡◌, slice_get, is_some, Some, IfOk};
ghost use Rattle.mo_types.specs.Heads.{map_option};
ghost use Rattle.arena_equality.specs.Own.{AreOwnLabels};
ghost use Rattle.arena_executions.specs.Giving.{IsGivenWithin};
ghost use Rattle.arena_actors.specs.States.{IsSound};
ghost use Rattle.arena_events.specs.Answering.{body_of, broken, no_effects, open_at, placed, taken, waiting_in, IsAnswered, IsAnsweredAt, IsBroken, IsGoingOn, IsGoingWith};
ghost use Rattle.arena_outcomes.specs.Books.{state_set};

use crate::calling::trapping;
use crate::filling::{Received, filled_by, given, place_of};
use arena_actors::{Activation, Actor, Body, Filled, Made, copied_actor};
use arena_executions::Given;
use arena_outcomes::{
    Done, Ending, Lived, Over, Ran, close, completed, is_open, run_waiting, trap_items,
    with_activation, with_state, with_table,
};
use arena_states::GroupOf;
use mo_num::{Bytes, Memory, Principal, Sequence};
use mo_types::TypeGraph;
use std::alloc::Global;
use std::mem;
use typed_tree::Program;

// Whether an incoming call waits on this call.
fn waits_for<'a>(activation: &Activation<'a>, number: u64) -> bool
    ensures { result ≡ is_some (waiting_in number (Some activation.now)) }
{
    match activation {
        Activation::WaitsFor(other, _) => *other == number,
        Activation::Answered => false,
        Activation::Dead => false,
        Activation::WaitsForNothing => false,
    }
}

// Whether the incoming call of this number waits on this call.
fn waits_on<'a>(came: &[Activation<'a>], owner: u64, number: u64) -> bool
    ensures { result ≡ is_some (waiting_in number (slice_get came.now owner)) }
{
    match came.get(owner as usize) {
        Some(activation) => waits_for(activation, number),
        None => false,
    }
}

/// An actor, and the body that waited in it.
#[derive(Drop)]
pub struct Taken<'a> {
    pub actor: Actor<'a>,
    pub body: Option<Body<'a>>,
}

// The body of an incoming call that waits.
fn body_of<'a>(activation: Activation<'a>) -> Option<Body<'a>>
    ensures { result ≡ body_of activation.entry }
{
    match activation {
        Activation::WaitsFor(_number, body) => Some(body),
        Activation::Answered => None,
        Activation::Dead => None,
        Activation::WaitsForNothing => None,
    }
}

// The body that waits on this call, taken out of the actor.
fn take_body<'a>(actor: Actor<'a>, owner: u64, number: u64) -> Taken<'a>
    ensures { result ≡ taken owner number actor.entry }
{
    if !waits_on(actor.came.as_slice(), owner, number) {
        return Taken { actor, body: None };
    }
    let Actor {
        arena,
        table,
        store,
        exports,
        first,
        made,
        came,
    } = actor;
    let mut list = came.into_vec();
    let mut other = Activation::Dead;
    let place = owner as usize;
    if place < list.len() {
        mem::swap(&mut list[place], &mut other);
    }
    Taken {
        actor: Actor {
            arena,
            table,
            store,
            exports,
            first,
            made,
            came: Sequence::from_vec(list),
        },
        body: body_of(other),
    }
}

// The future of the call is filled.
fn with_filled<'a>(actor: Actor<'a>, place: u64, filled: Filled) -> Actor<'a>
    ensures { result ≡ record actor.entry { made = state_set actor.entry.made place filled } }
{
    let Actor {
        arena,
        table,
        store,
        exports,
        first,
        made,
        came,
    } = actor;
    let made = with_state(made, place, filled);
    Actor {
        arena,
        table,
        store,
        exports,
        first,
        made,
        came,
    }
}

// Nothing is done, and the activation stays as it was.
fn no_effects<'a>(alloc: Global, actor: Actor<'a>) -> Done<'a>
    ensures { result ≡ no_effects actor.entry }
{
    Done {
        actor,
        calls: Sequence::new(alloc),
        prints: Sequence::new(alloc),
        ending: Ending::Unchanged,
    }
}

// What waits on the call goes on with this; where nothing waits, the future alone is filled.
fn go_with<'a>(
    alloc: Global,
    actor: Actor<'a>,
    types: &TypeGraph,
    own: &Principal,
    number: u64,
    owner: u64,
    given: Given,
    turns: u64,
) -> Result<Ran<'a>, Memory>
    requires labels { AreOwnLabels types.now }
    requires sound { IsSound actor }
    requires given { IsGivenWithin actor.arena given }
    ensures { IfOk result (λ r. IsGoingWith types.now own.now number owner given turns actor.entry r) }
{
    let Taken { actor, body } = take_body(actor, owner, number);
    match body {
        Some(body) => run_waiting(alloc, actor, types, own, given, body, turns),
        None => Ok(Ran::Completes(no_effects(alloc, actor))),
    }
}

// An open outgoing call, by its place.
#[derive(Clone, Copy)]
struct OpenCall<'b> {
    place: u64,
    call: &'b Made,
}

// The execution on an answer to the call at this place.
fn go_on<'a>(
    alloc: Global,
    actor: &Actor<'a>,
    types: &TypeGraph,
    own: &Principal,
    number: u64,
    asked: OpenCall,
    filled: Filled,
    turns: u64,
) -> Result<Ran<'a>, Memory>
    requires labels { AreOwnLabels types.now }
    requires sound { IsSound actor.now }
    ensures { IfOk result (λ r. IsGoingOn types.now own.now number asked.entry.place asked.entry.call.now filled turns actor.now r) }
{
    let mut copy = copied_actor(alloc, actor)?;
    match given(alloc, &mut copy.arena, types, &filled)? {
        None => {
            let table = Vec::from_slice(alloc, actor.table.as_slice())?;
            trapping(alloc, table, b"bad reply", turns)
        }
        Some(given) => {
            let copy = with_filled(copy, asked.place, filled);
            go_with(
                alloc,
                copy,
                types,
                own,
                number,
                asked.call.owner,
                given,
                turns,
            )
        }
    }
}

// A trap on the answer leaves the call answered. If the call's owner waited on it, the owner is dead; else the future is lost.
fn broken<'a>(actor: Actor<'a>, number: u64, place: u64, owner: u64) -> Actor<'a>
    ensures { result ≡ broken number place owner actor.entry }
{
    if waits_on(actor.came.as_slice(), owner, number) {
        let actor = with_activation(actor, owner, Activation::Dead);
        with_filled(actor, place, Filled::Neither)
    } else {
        with_filled(actor, place, Filled::Lost)
    }
}

// What an execution on an answer leaves that traps.
fn broken_off<'a>(
    alloc: Global,
    actor: &Actor<'a>,
    table: Vec<GroupOf<'a>>,
    number: u64,
    asked: OpenCall,
    prints: Sequence<Bytes>,
    text: Bytes,
) -> Result<Over<'a>, Memory>
    requires { IsSound actor.now }
    ensures { IfOk result (λ o. IsBroken actor.now table.entry.items number asked.entry.place asked.entry.call.now.owner prints text o) }
{
    let items = trap_items(alloc, Sequence::new(alloc), prints.as_slice(), text)?;
    let copy = with_table(copied_actor(alloc, actor)?, table);
    let actor = broken(copy, number, asked.place, asked.call.owner);
    close(alloc, asked.call.owner, Over { items, actor })
}

// What comes of an answer to an open call.
fn conclude<'a>(
    alloc: Global,
    actor: &Actor<'a>,
    program: &Program,
    own: &Principal,
    number: u64,
    asked: OpenCall,
    received_as: Received,
    turns: u64,
) -> Result<Lived<'a>, Memory>
    requires labels { AreOwnLabels program.now.types }
    requires sound { IsSound actor.now }
    ensures { IfOk result (λ l. IsAnsweredAt program.now own.now number asked.entry.place asked.entry.call.now received_as.entry turns actor.now l) }
{
    let filled = filled_by(
        alloc,
        actor.first,
        actor.made.as_slice(),
        asked.call,
        received_as,
    )?;
    match go_on(
        alloc,
        actor,
        &program.types,
        own,
        number,
        asked,
        filled,
        turns,
    )? {
        Ran::Still(table) => Ok(Lived::Still(table)),
        Ran::Traps(table, prints, text) => {
            let over = broken_off(alloc, actor, table, number, asked, prints, text)?;
            Ok(Lived::Over(over))
        }
        Ran::Completes(done) => Ok(Lived::Over(completed(alloc, asked.call.owner, done)?)),
    }
}

// The outgoing call of this number, if it is open.
fn open_call<'b>(first: u64, made: &'b [Made], number: u64) -> Option<OpenCall<'b>>
    ensures { map_option (λ o. placed o.place o.call.now) result ≡ open_at first made.entry.now number }
{
    let place = place_of(first, number)?;
    let call = made.get(place as usize)?;
    if !is_open(&call.state) {
        return None;
    }
    Some(OpenCall { place, call })
}

/// The answer to an outgoing call: exactly the items of the meaning and the actor behind it, or that its execution needs more than
/// so many turns. An answer to a call that is not open means nothing. The actor itself is left as it is.
pub fn answer<'a>(
    alloc: Global,
    actor: &Actor<'a>,
    program: &Program,
    own: &Principal,
    number: u64,
    received: Received,
    turns: u64,
) -> Result<Lived<'a>, Memory>
    requires labels { AreOwnLabels program.now.types }
    requires sound { IsSound actor.now }
    ensures { IfOk result (λ l. IsAnswered program.now own.now number received.entry turns actor.now l) }
{
    match open_call(actor.first, actor.made.as_slice(), number) {
        Some(asked) => conclude(alloc, actor, program, own, number, asked, received, turns),
        None => Ok(Lived::Ignored),
    }
}
