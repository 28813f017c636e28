//! Events in the life of one program.
ghost use Rattle.std.specs.Prelude.{List, IfOk};
ghost use Rattle.play_script.specs.declared.event.Event.TheVariants as event;
ghost use Rattle.typed_tree.specs.declared.program.Program.{Program as Written};
ghost use Rattle.stepper.specs.declared.state.State.TheVariants as state;
ghost use Rattle.stepper.specs.Living.{answer_event, IsNextOf};
ghost use Rattle.stepper.specs.Standing.{IsActorStanding};
ghost use Rattle.stepper.specs.Stepping.{IsNext};

use crate::state::{Behind, Next, Running, State};
use arena_events::{Incoming, Received, answer, receive};
use arena_outcomes::{Lived, Over};
use mo_num::{Memory, Principal};
use std::alloc::Global;
use typed_tree::Program;

// What an event in the life of a program comes to.
fn next_of<'a>(program: &'a Program, lived: Lived<'a>) -> Next<'a>
    ensures { IsNextOf program.entry.now lived.entry result }
{
    match lived {
        Lived::Still(_table) => Next::Still,
        Lived::Ignored => Next::Ignored,
        Lived::Over(over) => {
            let Over { items, actor } = over;
            Next::Behind(Behind {
                items,
                state: State::Running(Running { program, actor }),
            })
        }
    }
}

/// A call comes in.
pub(crate) fn call<'a>(
    alloc: Global,
    running: &Running<'a>,
    own: &Principal,
    call: Incoming,
    turns: u64,
) -> Result<Next<'a>, Memory>
    requires { IsActorStanding running.now }
    ensures { IfOk result (λ next. (programs : List Written) → IsNext programs own.now (event.Call call.entry.query call.entry.name.now call.entry.caller.now call.entry.argument.now) turns (state.Running running.now) next) }
{
    let lived = receive(alloc, &running.actor, running.program, own, call, turns)?;
    Ok(next_of(running.program, lived))
}

/// An answer to a call comes in.
pub(crate) fn answered<'a>(
    alloc: Global,
    running: &Running<'a>,
    own: &Principal,
    number: u64,
    received: Received,
    turns: u64,
) -> Result<Next<'a>, Memory>
    requires { IsActorStanding running.now }
    ensures { IfOk result (λ next. (programs : List Written) → IsNext programs own.now (answer_event number received.entry) turns (state.Running running.now) next) }
{
    let lived = answer(
        alloc,
        &running.actor,
        running.program,
        own,
        number,
        received,
        turns,
    )?;
    Ok(next_of(running.program, lived))
}
