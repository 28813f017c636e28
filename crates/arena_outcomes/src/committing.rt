//! What is taken over where an execution completes.
ghost use Rattle.std.specs.Prelude.{◌≡◌, [], IfOk};
ghost use Rattle.arena_actors.specs.States.{IsSound};
ghost use Rattle.arena_outcomes.specs.Books.{came_after, committed, completed};
ghost use Rattle.arena_outcomes.specs.Leaving.{IsLeftWith};

use crate::closing::close;
use crate::items::items_of;
use crate::lists::{with_activation, with_arrival, with_calls, with_table};
use crate::ran::{Done, Ending, Over};
use arena_actors::{Activation, Actor, copied_actor};
use arena_states::GroupOf;
use mo_num::{Memory, Sequence};
use play_script::Items;
use std::alloc::Global;

// The actor with its incoming call as the execution leaves it.
fn left<'a>(actor: Actor<'a>, owner: u64, ending: Ending<'a>) -> Actor<'a>
    ensures { result ≡ record actor.entry { came = came_after owner ending.entry actor.entry.came } }
{
    match ending {
        Ending::Replies(_bytes) => with_activation(actor, owner, Activation::Answered),
        Ending::Rejects(_text) => with_activation(actor, owner, Activation::Answered),
        Ending::Waits(number, body) => {
            with_activation(actor, owner, Activation::WaitsFor(number, body))
        }
        Ending::Sleeps => with_activation(actor, owner, Activation::WaitsForNothing),
        Ending::Unchanged => actor,
    }
}

// The actor with the calls that the execution made and its incoming call as it leaves it.
fn committed<'a>(owner: u64, done: Done<'a>) -> Result<Actor<'a>, Memory>
    ensures { IfOk result (λ a. a ≡ committed owner done.entry) }
{
    let Done {
        actor,
        calls,
        prints: _prints,
        ending,
    } = done;
    let Actor {
        arena,
        table,
        store,
        exports,
        first,
        made,
        came,
    } = actor;
    let made = with_calls(made, owner, calls)?;
    let actor = Actor {
        arena,
        table,
        store,
        exports,
        first,
        made,
        came,
    };
    Ok(left(actor, owner, ending))
}

/// The store, the calls and the activation are taken over: Motoko language manual, sections "Await" and "Async".
pub fn completed<'a>(alloc: Global, owner: u64, done: Done<'a>) -> Result<Over<'a>, Memory>
    ensures { IfOk result (λ o. o ≡ completed owner done.entry) }
{
    let items = items_of(alloc, Sequence::new(alloc), owner, &done)?;
    let actor = committed(owner, done)?;
    close(alloc, owner, Over { items, actor })
}

/// The actor is as it was, but for one more incoming call, which stands so: it is rejected if it is starved.
pub fn left_with<'a>(
    alloc: Global,
    actor: &Actor<'a>,
    table: Vec<GroupOf<'a>>,
    activation: Activation<'a>,
    items: Items,
) -> Result<Over<'a>, Memory>
    requires { IsSound actor.now }
    ensures { IfOk result (λ o. IsLeftWith actor.now table.entry.items activation.entry items o) }
{
    let owner = actor.came.len() as u64;
    let copy = copied_actor(alloc, actor)?;
    let actor = with_arrival(copy, activation)?;
    let actor = with_table(actor, table);
    close(alloc, owner, Over { items, actor })
}
