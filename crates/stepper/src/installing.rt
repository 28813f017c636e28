//! Installation: IC interface specification, section "Canister installation and upgrade".
ghost use Rattle.std.specs.Prelude.{◌≡◌, ℕ, List, slice_get, Some, IfOk};
ghost use Rattle.play_script.specs.declared.event.Event.TheVariants as event;
ghost use Rattle.typed_tree.specs.declared.program.Program.{Program as Written};
ghost use Rattle.arena_actors.specs.declared.actor.Activation.TheVariants as activation;
ghost use Rattle.arena_equality.specs.Own.{AreOwnLabels};
ghost use Rattle.stepper.specs.Installing.{begun, broken, IsBegun, IsInstalled};
ghost use Rattle.stepper.specs.declared.state.State.TheVariants as state;
ghost use Rattle.stepper.specs.Standing.{repeat};
ghost use Rattle.stepper.specs.Stepping.{IsNext};

use crate::state::{Behind, Next, Running, State};
use arena_actors::{Activation, Actor};
use arena_outcomes::{trap_items, with_item, with_prints};
use arena_starts::{Beginning, Started, start_anew};
use mo_num::{Bytes, Memory, Principal, Sequence};
use play_script::Item;
use std::alloc::Global;
use typed_tree::Program;

// So many incoming calls that are answered.
fn answered<'a>(alloc: Global, count: u64) -> Result<Sequence<Activation<'a>>, Memory>
    ensures { IfOk result (λ came. came ≡ repeat count activation.Answered) }
{
    let mut came = Sequence::new(alloc);
    for _ in 0..count {
        came.push(Activation::Answered)?;
    }
    Ok(came)
}

// An actor that has begun. Calls that came before keep their numbers.
fn begun<'a>(alloc: Global, came: u64, beginning: Beginning<'a>) -> Result<Actor<'a>, Memory>
    ensures { IfOk result (λ actor. actor ≡ begun came beginning.entry) }
{
    let came = answered(alloc, came)?;
    let Beginning {
        arena,
        table,
        store,
        exports,
        prints: _prints,
    } = beginning;
    Ok(Actor {
        arena,
        table,
        store,
        exports,
        first: 0,
        made: Sequence::new(alloc),
        came,
    })
}

// The program has begun.
fn begins<'a>(
    alloc: Global,
    came: u64,
    program: &'a Program,
    beginning: Beginning<'a>,
) -> Result<Next<'a>, Memory>
    ensures { IfOk result (λ next. IsBegun came program.entry.now beginning.entry next) }
{
    let items = with_prints(alloc, Sequence::new(alloc), beginning.prints.as_slice())?;
    let items = with_item(items, Item::Installed)?;
    let actor = begun(alloc, came, beginning)?;
    Ok(Next::Behind(Behind {
        items,
        state: State::Running(Running { program, actor }),
    }))
}

// A trap in the declarations leaves no actor.
fn breaks<'a>(alloc: Global, came: u64, prints: &[Bytes], text: Bytes) -> Result<Next<'a>, Memory>
    ensures { IfOk result (λ next. next ≡ broken came prints.now text) }
{
    let items = trap_items(alloc, Sequence::new(alloc), prints, text)?;
    Ok(Next::Behind(Behind {
        items,
        state: State::NoActor(came),
    }))
}

// What comes of the start.
fn installed<'a>(
    alloc: Global,
    came: u64,
    program: &'a Program,
    started: Started<'a>,
) -> Result<Next<'a>, Memory>
    ensures { IfOk result (λ next. IsInstalled came program.entry.now started.entry next) }
{
    match started {
        Started::Still(_table) => Ok(Next::Still),
        Started::Traps(_table, prints, text) => breaks(alloc, came, prints.as_slice(), text),
        Started::Starts(beginning) => begins(alloc, came, program, beginning),
    }
}

/// The program of this number is installed where no actor is.
pub(crate) fn install<'a>(
    alloc: Global,
    came: u64,
    program: &'a Program,
    own: &Principal,
    turns: u64,
) -> Result<Next<'a>, Memory>
    requires labels { AreOwnLabels program.now.types }
    ensures { IfOk result (λ next. (programs : List Written) (number : ℕ) → slice_get programs number ≡ Some program.entry.now → IsNext programs own.now (event.Install number) turns (state.NoActor came) next) }
{
    let started = start_anew(alloc, program, own, turns)?;
    installed(alloc, came, program, started)
}
