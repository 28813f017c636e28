//! Events where no actor is.
ghost use Rattle.std.specs.Prelude.{◌≡◌, ◌+◌, IfOk};
ghost use Rattle.play_script.specs.declared.event.Event.TheVariants as event;
ghost use Rattle.stepper.specs.Absent.{refused};
ghost use Rattle.stepper.specs.declared.state.State.TheVariants as state;
ghost use Rattle.stepper.specs.Standing.{AreOwned};
ghost use Rattle.stepper.specs.Stepping.{IsNext};

use crate::installing::install;
use crate::programs::program_at;
use crate::state::{Behind, Next, State};
use arena_outcomes::with_item;
use mo_num::{Bytes, Memory, Principal, Sequence};
use play_script::{Event, Item};
use std::alloc::Global;
use typed_tree::Program;

// One call more. More than 64 bits hold is want of memory.
fn one_more(came: u64) -> Result<u64, Memory>
    ensures { IfOk result (λ more. more ≡ came + 1) }
{
    match came.checked_add(1) {
        Some(more) => Ok(more),
        None => Err(Memory),
    }
}

// A call is rejected.
fn refused<'a>(alloc: Global, came: u64) -> Result<Next<'a>, Memory>
    ensures { IfOk result (λ next. next ≡ refused came) }
{
    let text = Bytes::from_slice(alloc, b"no canister")?;
    let item = Item::Rejected {
        number: came,
        code: 3,
        text,
    };
    let items = with_item(Sequence::new(alloc), item)?;
    let more = one_more(came)?;
    Ok(Next::Behind(Behind {
        items,
        state: State::NoActor(more),
    }))
}

// An installation by its number.
fn install_at<'a>(
    alloc: Global,
    programs: &'a [Program],
    own: &Principal,
    came: u64,
    number: u32,
    turns: u64,
) -> Result<Next<'a>, Memory>
    requires { AreOwned programs.now }
    ensures { IfOk result (λ next. IsNext programs.entry.now own.now (event.Install number) turns (state.NoActor came) next) }
{
    match program_at(programs, number) {
        Some(program) => install(alloc, came, program, own, turns),
        None => Ok(Next::Ignored),
    }
}

/// An event where no actor is. Answers and upgrades mean nothing then.
pub(crate) fn without_actor<'a>(
    alloc: Global,
    programs: &'a [Program],
    own: &Principal,
    came: u64,
    event: &Event,
    turns: u64,
) -> Result<Next<'a>, Memory>
    requires { AreOwned programs.now }
    ensures { IfOk result (λ next. IsNext programs.entry.now own.now event.now turns (state.NoActor came) next) }
{
    match event {
        Event::Install(number) => install_at(alloc, programs, own, came, *number, turns),
        Event::Call { .. } => refused(alloc, came),
        Event::Reply { .. } => Ok(Next::Ignored),
        Event::Reject { .. } => Ok(Next::Ignored),
        Event::Upgrade(_) => Ok(Next::Ignored),
    }
}
