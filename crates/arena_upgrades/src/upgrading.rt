//! Upgrades: IC interface specification, section "Canister installation and upgrade"; Motoko language manual, section "Stable
//! variables".
ghost use Rattle.std.specs.Prelude.{IfOk};
ghost use Rattle.arena_actors.specs.States.{IsSound};
ghost use Rattle.arena_equality.specs.Own.{AreOwnLabels};
ghost use Rattle.arena_upgrades.specs.Upgrades.{IsUpgrade};

use crate::open_calls::any_open;
use crate::outstanding::outstanding;
use crate::saving::save_first;
use crate::upgraded::Upgrade;
use arena_actors::Actor;
use mo_num::{Memory, Principal};
use std::alloc::Global;
use typed_tree::Program;

/// The new program takes the place of the old one, within so many turns for each of the two executions: exactly what the meaning
/// says. The actor is left as it is.
pub fn upgrade<'a>(
    alloc: Global,
    actor: &Actor<'a>,
    old: &'a Program,
    new: &'a Program,
    own: &Principal,
    turns: u64,
) -> Result<Upgrade<'a>, Memory>
    requires old { AreOwnLabels old.now.types }
    requires new { AreOwnLabels new.now.types }
    requires sound { IsSound actor.now }
    ensures { IfOk result (λ upgrade. IsUpgrade old.entry.now new.entry.now own.now turns actor.now upgrade) }
{
    if any_open(actor.made.as_slice()) {
        return outstanding(alloc, actor, turns);
    }
    save_first(alloc, actor, old, new, own, turns)
}
