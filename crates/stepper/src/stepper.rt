//! One event after another.
ghost use Rattle.std.specs.Prelude.{◌≡◌, IfOk};
ghost use Rattle.stepper.specs.declared.state.State.TheVariants as state;
ghost use Rattle.stepper.specs.Standing.{AreOwned, IsActorStanding, IsSound};
ghost use Rattle.stepper.specs.Stepping.{IsNext};

use crate::absent::without_actor;
use crate::living::{answered, call};
use crate::state::{Behind, Next, Running, State, Stepped, Stepper};
use crate::upgrading::upgrade_to;
use arena_events::{Incoming, Received};
use arena_outcomes::with_item;
use mo_num::{Memory, Principal, Sequence};
use play_script::{Event, Item};
use std::alloc::Global;
use typed_tree::Program;

// An event of an actor that is there.
fn with_actor<'a>(
    alloc: Global,
    programs: &'a [Program],
    own: &Principal,
    running: &Running<'a>,
    event: &Event,
    turns: u64,
) -> Result<Next<'a>, Memory>
    requires programs { AreOwned programs.now }
    requires actor { IsActorStanding running.now }
    ensures { IfOk result (λ next. IsNext programs.entry.now own.now event.now turns (state.Running running.now) next) }
{
    match event {
        Event::Install(_) => Ok(Next::NoCourse),
        Event::Call {
            query,
            method,
            caller,
            bytes,
        } => {
            let incoming = Incoming {
                query: *query,
                name: method.as_slice(),
                caller,
                argument: bytes.as_slice(),
            };
            call(alloc, running, own, incoming, turns)
        }
        Event::Reply { number, bytes } => {
            answered(alloc, running, own, *number, Received::Reply(bytes), turns)
        }
        Event::Reject { number, code, text } => answered(
            alloc,
            running,
            own,
            *number,
            Received::Reject(*code, text),
            turns,
        ),
        Event::Upgrade(number) => upgrade_to(alloc, programs, own, running, *number, turns),
    }
}

// What an event comes to.
fn next<'a>(
    alloc: Global,
    stepper: &Stepper<'a>,
    event: &Event,
    turns: u64,
) -> Result<Next<'a>, Memory>
    requires { IsSound stepper.now }
    ensures { IfOk result (λ next. IsNext stepper.now.programs.now stepper.now.own.now event.now turns stepper.now.state next) }
{
    match &stepper.state {
        State::NoActor(came) => {
            without_actor(alloc, stepper.programs, stepper.own, *came, event, turns)
        }
        State::Running(running) => {
            with_actor(alloc, stepper.programs, stepper.own, running, event, turns)
        }
    }
}

impl<'a> Stepper<'a> {
    ghost use Rattle.std.specs.Prelude.{◌≡◌, IfOk, OnErr};
    ghost use Rattle.stepper.specs.declared.state.State.TheVariants as state;
    ghost use Rattle.stepper.specs.Standing.{AreOwned, IsSound};
    ghost use Rattle.stepper.specs.Stepping.{IsStep};

    /// No actor yet, and no calls.
    pub fn new(programs: &'a [Program], own: &'a Principal) -> Self
        ensures programs { result.programs ≡ programs.entry }
        ensures own { result.own ≡ own.entry }
        ensures state { result.state ≡ state.NoActor 0 }
        ensures sound { AreOwned programs.entry.now → IsSound result }
    {
        Stepper {
            programs,
            own,
            state: State::NoActor(0),
        }
    }

    /// One event, within so many turns for each of its executions: exactly the items of the meaning and the state behind it, or
    /// that an execution needs more turns. Then, and after want of memory, the stepper is as before the event.
    pub fn event(&mut self, alloc: Global, event: &Event, turns: u64) -> Result<Stepped, Memory>
        requires sound { IsSound self.old }
        ensures step { IfOk result (λ stepped. IsStep event.now turns self.old self.new stepped) }
        ensures memory { OnErr result (self.new ≡ self.old) }
    {
        match next(alloc, self, event, turns)? {
            Next::Still => Ok(Stepped::Still),
            Next::NoCourse => Ok(Stepped::NoCourse),
            Next::Ignored => {
                let items = with_item(Sequence::new(alloc), Item::Ignored)?;
                Ok(Stepped::Items(items))
            }
            Next::Behind(behind) => {
                let Behind { items, state } = behind;
                self.state = state;
                Ok(Stepped::Items(items))
            }
        }
    }
}
