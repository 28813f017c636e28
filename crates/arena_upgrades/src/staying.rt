//! The old program stays where an execution of the upgrade traps.
ghost use Rattle.std.specs.Prelude.{◌≡◌, ◌++◌, ◌∷◌, [], IfOk};
ghost use Rattle.play_script.specs.declared.item.Word.TheVariants as word;
ghost use Rattle.mo_actor.specs.Outcomes.{trap_items as items_of_trap};
ghost use Rattle.arena_actors.specs.States.{IsSound};
ghost use Rattle.arena_upgrades.specs.Staying.{IsIncompatible, IsStayingWith};

use crate::upgraded::Upgrade;
use arena_actors::{Actor, copied_actor};
use arena_outcomes::{Over, trap_items, with_table};
use arena_states::GroupOf;
use mo_num::{Bytes, Memory};
use play_script::Items;
use std::alloc::Global;

/// The actor stays as it was, behind these items.
pub(crate) fn stay<'a>(
    alloc: Global,
    actor: &Actor<'a>,
    table: Vec<GroupOf<'a>>,
    items: Items,
) -> Result<Upgrade<'a>, Memory>
    requires { IsSound actor.now }
    ensures { IfOk result (λ upgrade. IsStayingWith actor.now table.entry items upgrade) }
{
    let copy = copied_actor(alloc, actor)?;
    let actor = with_table(copy, table);
    Ok(Upgrade::Stays(Over { items, actor }))
}

/// An execution traps with this text, behind these items and its prints.
pub(crate) fn trapped<'a>(
    alloc: Global,
    actor: &Actor<'a>,
    table: Vec<GroupOf<'a>>,
    before: Items,
    prints: &[Bytes],
    text: Bytes,
) -> Result<Upgrade<'a>, Memory>
    requires { IsSound actor.now }
    ensures { IfOk result (λ upgrade. IsStayingWith actor.now table.entry (before ++ items_of_trap prints.now (word.Text text)) upgrade) }
{
    let items = trap_items(alloc, before, prints, text)?;
    stay(alloc, actor, table, items)
}

/// A kept value is none of its new type: the new program traps at its first turn.
pub(crate) fn incompatible<'a>(
    alloc: Global,
    actor: &Actor<'a>,
    table: Vec<GroupOf<'a>>,
    before: Items,
    turns: u64,
) -> Result<Upgrade<'a>, Memory>
    requires { IsSound actor.now }
    ensures { IfOk result (λ upgrade. IsIncompatible turns actor.now table.entry before upgrade) }
{
    if turns == 0 {
        return Ok(Upgrade::Still(table));
    }
    let text = Bytes::from_slice(alloc, b"incompatible stable types")?;
    trapped(alloc, actor, table, before, &[], text)
}
