//! Incoming calls.
ghost use Rattle.std.specs.Prelude.{◌≡◌, true, false, IfOk};
ghost use Rattle.arena_equality.specs.Own.{AreOwnLabels};
ghost use Rattle.arena_actors.specs.States.{IsSound};
ghost use Rattle.arena_events.specs.Calling.{after_query, trapping, IsCalled, IsEntered, IsMissing, IsQueried, IsReceived, IsTold, IsTrapped};
ghost use Rattle.arena_events.specs.Methods.{entry_of};

use crate::methods::{Found, find_method};
use arena_actors::{Activation, Actor, copied_actor, copied_types};
use arena_bodies::Entered;
use arena_outcomes::{
    Done, Ending, Lived, Over, Ran, completed, left_with, query_items, run_entered, trap_items,
    with_arrival, with_item,
};
use arena_reading::read_values;
use arena_states::GroupOf;
use mo_num::{Bytes, Memory, Principal, Sequence};
use mo_types::TypeGraph;
use play_script::Item;
use std::alloc::Global;
use typed_tree::Program;

/// An incoming call of an update method or of a query method.
#[derive(Clone, Copy)]
pub struct Incoming<'b> {
    pub query: bool,
    pub name: &'b [u8],
    pub caller: &'b Principal,
    pub argument: &'b [u8],
}

// The execution that traps at once with this text, for so many turns.
pub(crate) fn trapping<'a>(
    alloc: Global,
    table: Vec<GroupOf<'a>>,
    text: &[u8],
    turns: u64,
) -> Result<Ran<'a>, Memory>
    ensures { IfOk result (λ r. r ≡ trapping table.entry text.now turns) }
{
    if turns == 0 {
        return Ok(Ran::Still(table));
    }
    let text = Bytes::from_slice(alloc, text)?;
    Ok(Ran::Traps(table, Sequence::new(alloc), text))
}

// The execution of a method that is found, whose argument is read first.
fn enter<'a>(
    alloc: Global,
    actor: &Actor<'a>,
    types: &TypeGraph,
    own: &Principal,
    found: Found,
    call: Incoming,
    turns: u64,
) -> Result<Ran<'a>, Memory>
    requires labels { AreOwnLabels types.now }
    requires sound { IsSound actor.now }
    ensures { IfOk result (λ r. IsEntered types.now own.now (entry_of found.entry) call.entry.caller.now call.entry.argument.now turns actor.now r) }
{
    let copy = copied_actor(alloc, actor)?;
    let mut copy = with_arrival(copy, Activation::Dead)?;
    let read = read_values(
        alloc,
        &mut copy.arena,
        types,
        found.parameters,
        call.argument,
    )?;
    match read {
        None => {
            let table = Vec::from_slice(alloc, actor.table.as_slice())?;
            trapping(alloc, table, b"bad argument", turns)
        }
        Some(values) => {
            let results = copied_types(alloc, found.results)?;
            let entered = Entered {
                place: found.place,
                caller: call.caller,
                arguments: values.as_slice(),
            };
            run_entered(alloc, copy, types, own, results, &entered, turns)
        }
    }
}

// The items of a query that completes, and the actor as it was but for its call.
fn queried<'a>(alloc: Global, actor: &Actor<'a>, done: Done<'a>) -> Result<Over<'a>, Memory>
    requires { IsSound actor.now }
    ensures { IfOk result (λ o. IsQueried actor.now done.entry o) }
{
    let owner = actor.came.len() as u64;
    let items = query_items(alloc, Sequence::new(alloc), owner, &done)?;
    let table = Vec::from_slice(alloc, done.actor.table.as_slice())?;
    let activation = after_query(&done.ending);
    left_with(alloc, actor, table, activation, items)
}

// A query that gives no answer is as good as dead.
fn after_query<'a, 'b>(ending: &Ending<'a>) -> Activation<'b>
    ensures { result ≡ after_query ending.now }
{
    match ending {
        Ending::Replies(_) => Activation::Answered,
        Ending::Rejects(_) => Activation::Answered,
        Ending::Waits(..) => Activation::Dead,
        Ending::Sleeps => Activation::Dead,
        Ending::Unchanged => Activation::Dead,
    }
}

// What an execution leaves that traps: the actor as it was but for its call.
fn trapped<'a>(
    alloc: Global,
    actor: &Actor<'a>,
    table: Vec<GroupOf<'a>>,
    prints: &[Bytes],
    text: Bytes,
) -> Result<Over<'a>, Memory>
    requires { IsSound actor.now }
    ensures { IfOk result (λ o. IsTrapped actor.now table.entry.items prints.now text o) }
{
    let items = trap_items(alloc, Sequence::new(alloc), prints, text)?;
    left_with(alloc, actor, table, Activation::Dead, items)
}

// What comes of the execution of a query method, or of an update method.
fn concluded<'a>(
    alloc: Global,
    actor: &Actor<'a>,
    query: bool,
    ran: Ran<'a>,
) -> Result<Lived<'a>, Memory>
    requires { IsSound actor.now }
    ensures { IfOk result (λ l. IsTold actor.now query ran.entry l) }
{
    match ran {
        Ran::Still(table) => Ok(Lived::Still(table)),
        Ran::Traps(table, prints, text) => {
            Ok(Lived::Over(trapped(alloc, actor, table, prints.as_slice(), text)?))
        }
        Ran::Completes(done) => {
            if query {
                Ok(Lived::Over(queried(alloc, actor, done)?))
            } else {
                let owner = actor.came.len() as u64;
                Ok(Lived::Over(completed(alloc, owner, done)?))
            }
        }
    }
}

// A call of a method that is found.
fn call_found<'a>(
    alloc: Global,
    actor: &Actor<'a>,
    program: &Program,
    own: &Principal,
    query: bool,
    found: Found,
    call: Incoming,
    turns: u64,
) -> Result<Lived<'a>, Memory>
    requires labels { AreOwnLabels program.now.types }
    requires sound { IsSound actor.now }
    ensures { IfOk result (λ l. IsCalled program.now own.now query (entry_of found.entry) call.entry.caller.now call.entry.argument.now turns actor.now l) }
{
    let ran = enter(alloc, actor, &program.types, own, found, call, turns)?;
    concluded(alloc, actor, query, ran)
}

// A call of a method that is not there is rejected.
fn no_method<'a>(alloc: Global, actor: &Actor<'a>) -> Result<Lived<'a>, Memory>
    requires { IsSound actor.now }
    ensures { IfOk result (λ l. IsMissing actor.now l) }
{
    let owner = actor.came.len() as u64;
    let text = Bytes::from_slice(alloc, b"no method")?;
    let item = Item::Rejected {
        number: owner,
        code: 5,
        text,
    };
    let items = with_item(Sequence::new(alloc), item)?;
    let table = Vec::from_slice(alloc, actor.table.as_slice())?;
    Ok(Lived::Over(left_with(alloc, actor, table, Activation::Answered, items)?))
}

// A call of the query method of the name.
fn receive_query<'a>(
    alloc: Global,
    actor: &Actor<'a>,
    program: &Program,
    own: &Principal,
    call: Incoming,
    turns: u64,
) -> Result<Lived<'a>, Memory>
    requires labels { AreOwnLabels program.now.types }
    requires sound { IsSound actor.now }
    ensures { IfOk result (λ l. IsReceived program.now own.now true call.entry.name.now call.entry.caller.now call.entry.argument.now turns actor.now l) }
{
    match find_method(program.methods.as_slice(), true, call.name) {
        Some(found) => call_found(alloc, actor, program, own, true, found, call, turns),
        None => no_method(alloc, actor),
    }
}

// A call of the update method of the name, for which the query method of the name stands in.
fn receive_update<'a>(
    alloc: Global,
    actor: &Actor<'a>,
    program: &Program,
    own: &Principal,
    call: Incoming,
    turns: u64,
) -> Result<Lived<'a>, Memory>
    requires labels { AreOwnLabels program.now.types }
    requires sound { IsSound actor.now }
    ensures { IfOk result (λ l. IsReceived program.now own.now false call.entry.name.now call.entry.caller.now call.entry.argument.now turns actor.now l) }
{
    match find_method(program.methods.as_slice(), false, call.name) {
        Some(found) => call_found(alloc, actor, program, own, false, found, call, turns),
        None => receive_query(alloc, actor, program, own, call, turns),
    }
}

/// An incoming call: exactly the items of the meaning and the actor behind it, or that its execution needs more than so many
/// turns. A call runs the update method of the name, or else the query method. The actor itself is left as it is.
pub fn receive<'a>(
    alloc: Global,
    actor: &Actor<'a>,
    program: &Program,
    own: &Principal,
    call: Incoming,
    turns: u64,
) -> Result<Lived<'a>, Memory>
    requires labels { AreOwnLabels program.now.types }
    requires sound { IsSound actor.now }
    ensures { IfOk result (λ l. IsReceived program.now own.now call.entry.query call.entry.name.now call.entry.caller.now call.entry.argument.now turns actor.now l) }
{
    let query = call.query;
    if query {
        receive_query(alloc, actor, program, own, call, turns)
    } else {
        receive_update(alloc, actor, program, own, call, turns)
    }
}
