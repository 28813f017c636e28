//! The new program starts over what was kept.
ghost use Rattle.std.specs.Prelude.{◌≡◌, ◌+◌, length, IfOk};
ghost use Rattle.mo_types.specs.Heads.{map_option};
ghost use Rattle.arena_bodies.specs.Restarting.{AreKeptWithin};
ghost use Rattle.arena_equality.specs.Own.{AreOwnLabels};
ghost use Rattle.arena_keeping.specs.Keeping.{AreAllWithin};
ghost use Rattle.arena_actors.specs.States.{IsSound};
ghost use Rattle.arena_upgrades.specs.Restarting.{begun_actor, IsBegunAs, IsBase, IsBaseOf, IsKeptOver, IsOverKept, IsRestartedAs, IsStartedOver};

use crate::staying::{incompatible, trapped};
use crate::upgraded::Upgrade;
use arena_actors::{Activation, Actor, copied_actor};
use arena_keeping::keep_values;
use arena_outcomes::{Over, with_item, with_prints};
use arena_saving::Keeping;
use arena_starts::{Beginning, Started, start_again};
use arena_states::GroupOf;
use mo_num::{Memory, Principal, Sequence};
use play_script::{Item, Items};
use std::alloc::Global;
use typed_tree::Program;
use value_arena::{Arena, ValueId};

/// What stays of the actor where the new program has begun: the incoming calls, over an arena of their own, and the number of
/// the next outgoing call.
#[derive(Drop)]
pub struct Base<'a> {
    pub arena: Arena,
    pub first: u64,
    pub came: Sequence<Activation<'a>>,
}

// The number of the next outgoing call. More than 64 bits hold is want of memory.
fn next_number<'a>(actor: &Actor<'a>) -> Result<u64, Memory>
    ensures { IfOk result (λ next. next ≡ actor.now.first + length actor.now.made) }
{
    match actor.first.checked_add(actor.made.len() as u64) {
        Some(next) => Ok(next),
        None => Err(Memory),
    }
}

// What stays of this actor.
fn base_of<'a>(actor: Actor<'a>, next: u64) -> Base<'a>
    ensures { IsBaseOf actor.entry next result }
{
    let Actor {
        arena,
        table: _table,
        store: _store,
        exports: _exports,
        first: _first,
        made: _made,
        came,
    } = actor;
    Base {
        arena,
        first: next,
        came,
    }
}

// And of a copy of it.
fn copied_base<'a>(alloc: Global, actor: &Actor<'a>) -> Result<Base<'a>, Memory>
    requires { IsSound actor.now }
    ensures { IfOk result (λ g. IsBase actor.now g) }
{
    let next = next_number(actor)?;
    let copy = copied_actor(alloc, actor)?;
    Ok(base_of(copy, next))
}

// The actor of the new program.
fn actor_on<'a>(
    alloc: Global,
    beginning: Beginning<'a>,
    first: u64,
    came: Sequence<Activation<'a>>,
) -> Actor<'a>
    ensures { result ≡ begun_actor beginning.entry first came.entry }
{
    let Beginning {
        arena,
        table,
        store,
        exports,
        prints: _prints,
    } = beginning;
    Actor {
        arena,
        table,
        store,
        exports,
        first,
        made: Sequence::new(alloc),
        came,
    }
}

// The new program has begun, behind these items.
fn begun<'a>(
    alloc: Global,
    before: Items,
    beginning: Beginning<'a>,
    first: u64,
    came: Sequence<Activation<'a>>,
) -> Result<Upgrade<'a>, Memory>
    ensures { IfOk result (λ upgrade. IsBegunAs before beginning.entry first came.entry upgrade) }
{
    let printed = with_prints(alloc, before, beginning.prints.as_slice())?;
    let items = with_item(printed, Item::Upgraded)?;
    let actor = actor_on(alloc, beginning, first, came);
    Ok(Upgrade::Upgrades(Over { items, actor }))
}

// What the start comes to.
fn restarted<'a>(
    alloc: Global,
    actor: &Actor<'a>,
    before: Items,
    started: Started<'a>,
    first: u64,
    came: Sequence<Activation<'a>>,
) -> Result<Upgrade<'a>, Memory>
    requires { IsSound actor.now }
    ensures { IfOk result (λ upgrade. IsRestartedAs actor.now before started.entry first came.entry upgrade) }
{
    match started {
        Started::Still(table) => Ok(Upgrade::Still(table)),
        Started::Traps(table, prints, text) => {
            trapped(alloc, actor, table, before, prints.as_slice(), text)
        }
        Started::Starts(beginning) => begun(alloc, before, beginning, first, came),
    }
}

// The start over these values.
fn start_over<'a>(
    alloc: Global,
    actor: &Actor<'a>,
    new: &'a Program,
    own: &Principal,
    turns: u64,
    table: Vec<GroupOf<'a>>,
    before: Items,
    base: Base<'a>,
    kept: &[Option<ValueId>],
) -> Result<Upgrade<'a>, Memory>
    requires labels { AreOwnLabels new.now.types }
    requires sound { IsSound actor.now }
    requires kept { AreKeptWithin base.arena kept.now }
    ensures { IfOk result (λ upgrade. IsStartedOver new.entry.now own.now turns actor.now table.entry before base.entry kept.now upgrade) }
{
    let Base { arena, first, came } = base;
    let started = start_again(alloc, arena, table, new, own, kept, turns)?;
    restarted(alloc, actor, before, started, first, came)
}

// Or a trap, where a value is incompatible.
fn kept_over<'a>(
    alloc: Global,
    actor: &Actor<'a>,
    new: &'a Program,
    own: &Principal,
    turns: u64,
    table: Vec<GroupOf<'a>>,
    before: Items,
    base: Base<'a>,
    kept: Option<Vec<Option<ValueId>>>,
) -> Result<Upgrade<'a>, Memory>
    requires labels { AreOwnLabels new.now.types }
    requires sound { IsSound actor.now }
    requires kept { AreAllWithin base.arena (map_option (λ v. v.items) kept) }
    ensures { IfOk result (λ upgrade. IsKeptOver new.entry.now own.now turns actor.now table.entry before base.entry (map_option (λ v. v.items) kept) upgrade) }
{
    match kept {
        Some(kept) => start_over(
            alloc,
            actor,
            new,
            own,
            turns,
            table,
            before,
            base,
            kept.as_slice(),
        ),
        None => incompatible(alloc, actor, table, before, turns),
    }
}

/// The new program over what the old one has saved.
pub(crate) fn over_kept<'a>(
    alloc: Global,
    actor: &Actor<'a>,
    old: &Program,
    new: &'a Program,
    own: &Principal,
    turns: u64,
    keeping: Keeping<'a>,
) -> Result<Upgrade<'a>, Memory>
    requires labels { AreOwnLabels new.now.types }
    requires sound { IsSound actor.now }
    ensures { IfOk result (λ upgrade. IsOverKept old.now new.entry.now own.now turns actor.now keeping.entry upgrade) }
{
    let Keeping {
        table,
        prints,
        parts,
    } = keeping;
    let before = with_prints(alloc, Sequence::new(alloc), prints.as_slice())?;
    let mut base = copied_base(alloc, actor)?;
    let kept = keep_values(alloc, &mut base.arena, old, new, parts.as_slice())?;
    kept_over(alloc, actor, new, own, turns, table, before, base, kept)
}
