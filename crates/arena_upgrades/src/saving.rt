//! The old program saves first.
ghost use Rattle.std.specs.Prelude.{IfOk};
ghost use Rattle.arena_actors.specs.States.{IsSound};
ghost use Rattle.arena_equality.specs.Own.{AreOwnLabels};
ghost use Rattle.arena_upgrades.specs.Outstanding.{HasNoOpen};
ghost use Rattle.arena_upgrades.specs.Saving.{IsBehindSaving};
ghost use Rattle.arena_upgrades.specs.Upgrades.{IsUpgrade};

use crate::restarting::over_kept;
use crate::staying::trapped;
use crate::upgraded::Upgrade;
use arena_actors::{Actor, copied_actor};
use arena_saving::{Saved, save};
use mo_num::{Memory, Principal, Sequence};
use std::alloc::Global;
use typed_tree::Program;

// What comes of what saving came to.
fn behind_saving<'a>(
    alloc: Global,
    actor: &Actor<'a>,
    old: &Program,
    new: &'a Program,
    own: &Principal,
    turns: u64,
    saved: Saved<'a>,
) -> Result<Upgrade<'a>, Memory>
    requires labels { AreOwnLabels new.now.types }
    requires sound { IsSound actor.now }
    ensures { IfOk result (λ upgrade. IsBehindSaving old.now new.entry.now own.now turns actor.now saved.entry upgrade) }
{
    match saved {
        Saved::Still(table) => Ok(Upgrade::Still(table)),
        Saved::Traps(table, prints, text) => {
            let before = Sequence::new(alloc);
            trapped(alloc, actor, table, before, prints.as_slice(), text)
        }
        Saved::Keeps(keeping) => over_kept(alloc, actor, old, new, own, turns, keeping),
    }
}

/// The upgrade of an actor that has no open calls.
pub(crate) fn save_first<'a>(
    alloc: Global,
    actor: &Actor<'a>,
    old: &'a Program,
    new: &'a Program,
    own: &Principal,
    turns: u64,
) -> Result<Upgrade<'a>, Memory>
    requires old { AreOwnLabels old.now.types }
    requires new { AreOwnLabels new.now.types }
    requires sound { IsSound actor.now }
    requires closed { HasNoOpen actor.now }
    ensures { IfOk result (λ upgrade. IsUpgrade old.entry.now new.entry.now own.now turns actor.now upgrade) }
{
    let copy = copied_actor(alloc, actor)?;
    let saved = save(alloc, copy, old, own, turns)?;
    behind_saving(alloc, actor, old, new, own, turns, saved)
}
