//! Upgrades: IC interface specification, section "Canister installation and upgrade"; Motoko language manual, section "Stable
//! variables".
ghost use Rattle.std.specs.Prelude.{IfOk};
ghost use Rattle.play_script.specs.declared.event.Event.TheVariants as event;
ghost use Rattle.stepper.specs.declared.state.State.TheVariants as state;
ghost use Rattle.stepper.specs.Standing.{AreOwned, IsActorStanding};
ghost use Rattle.stepper.specs.Stepping.{IsNext};
ghost use Rattle.stepper.specs.Living.{IsBehind};
ghost use Rattle.stepper.specs.Upgrading.{IsNextOf};

use crate::programs::program_at;
use crate::state::{Behind, Next, Running, State};
use arena_outcomes::Over;
use arena_upgrades::{Upgrade, upgrade};
use mo_num::{Memory, Principal};
use std::alloc::Global;
use typed_tree::Program;

// The state with this actor.
fn behind<'a>(program: &'a Program, over: Over<'a>) -> Next<'a>
    ensures { IsBehind program.entry.now over.entry result }
{
    let Over { items, actor } = over;
    Next::Behind(Behind {
        items,
        state: State::Running(Running { program, actor }),
    })
}

// What an upgrade comes to.
fn next_of<'a>(old: &'a Program, new: &'a Program, upgraded: Upgrade<'a>) -> Next<'a>
    ensures { IsNextOf old.entry.now new.entry.now upgraded.entry result }
{
    match upgraded {
        Upgrade::Still(_table) => Next::Still,
        Upgrade::Stays(over) => behind(old, over),
        Upgrade::Upgrades(over) => behind(new, over),
    }
}

/// The program of this number takes the place of the actor's.
pub(crate) fn upgrade_to<'a>(
    alloc: Global,
    programs: &'a [Program],
    own: &Principal,
    running: &Running<'a>,
    number: u32,
    turns: u64,
) -> Result<Next<'a>, Memory>
    requires programs { AreOwned programs.now }
    requires actor { IsActorStanding running.now }
    ensures { IfOk result (λ next. IsNext programs.entry.now own.now (event.Upgrade number) turns (state.Running running.now) next) }
{
    let Some(program) = program_at(programs, number) else {
        return Ok(Next::Ignored);
    };
    let upgraded = upgrade(alloc, &running.actor, running.program, program, own, turns)?;
    Ok(next_of(running.program, program, upgraded))
}
