//! An upgrade while calls are open: Motoko language manual, section "Stable variables".
ghost use Rattle.std.specs.Prelude.{◌≡◌, IfOk};
ghost use Rattle.mo_values.specs.Shapes.{Bytes as Spelled};
ghost use Rattle.typed_tree.specs.declared.program.Program.{Program as Written};
ghost use Rattle.arena_actors.specs.States.{IsSound};
ghost use Rattle.arena_upgrades.specs.Outstanding.{trap_item, HasOpen, IsStaying};
ghost use Rattle.arena_upgrades.specs.Upgrades.{IsUpgrade};

use crate::upgraded::Upgrade;
use arena_actors::{Actor, copied_actor};
use arena_outcomes::{Over, with_item};
use mo_num::{Bytes, Memory, Sequence};
use play_script::{Item, Items, Word};
use std::alloc::Global;

// The trap.
fn trap_item(alloc: Global) -> Result<Item, Memory>
    ensures { IfOk result (λ item. item ≡ trap_item) }
{
    let text = Bytes::from_slice(alloc, b"outstanding calls")?;
    Ok(Item::Trapped(Word::Text(text)))
}

// The old program stays, behind these items.
fn stays<'a>(alloc: Global, actor: &Actor<'a>, items: Items) -> Result<Upgrade<'a>, Memory>
    requires { IsSound actor.now }
    ensures { IfOk result (λ upgrade. IsStaying actor.now items upgrade) }
{
    let actor = copied_actor(alloc, actor)?;
    Ok(Upgrade::Stays(Over { items, actor }))
}

/// The old program traps at its first turn, since calls are open.
pub(crate) fn outstanding<'a>(
    alloc: Global,
    actor: &Actor<'a>,
    turns: u64,
) -> Result<Upgrade<'a>, Memory>
    requires { IsSound actor.now }
    ensures { IfOk result (λ upgrade. (old new : Written) (own : Spelled) → HasOpen actor.now → IsUpgrade old new own turns actor.now upgrade) }
{
    if turns == 0 {
        let table = Vec::from_slice(alloc, actor.table.as_slice())?;
        return Ok(Upgrade::Still(table));
    }
    let item = trap_item(alloc)?;
    let items = with_item(Sequence::new(alloc), item)?;
    stays(alloc, actor, items)
}
