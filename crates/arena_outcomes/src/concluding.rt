//! What an execution comes to, with what was laid aside.
ghost use Rattle.std.specs.Prelude.{◌≡◌};
ghost use Rattle.arena_outcomes.specs.Ends.{begun, ended, ran_of, reached_end};

use crate::ran::{Begun, Done, Ending, Ran, Rest};
use arena_actors::{Actor, Body};
use arena_executions::{End, Execution, Reached};
use arena_machine::Machine;
use arena_states::Frame;
use mo_num::{Bytes, Sequence};
use mo_types::TypeId;
use std::alloc::Global;

/// An actor whose execution begins, with these frames.
pub(crate) fn begun<'a>(alloc: Global, actor: Actor<'a>, frames: Vec<Frame<'a>>) -> Begun<'a>
    ensures { result ≡ begun actor.entry frames.entry }
{
    let Actor {
        arena,
        table,
        store,
        exports,
        first,
        made,
        came,
    } = actor;
    let machine = Machine {
        arena,
        table,
        store,
        frames,
        prints: Sequence::new(alloc),
    };
    Begun {
        rest: Rest {
            exports,
            first,
            made,
            came,
        },
        execution: Execution {
            machine,
            calls: Sequence::new(alloc),
        },
    }
}

/// How an execution ends, for its actor.
#[derive(Drop)]
pub enum Ended<'a> {
    /// In no way that the meaning knows.
    Never,
    Traps(Bytes),
    Completes(Ending<'a>),
}

// How a shared body with results of these types ends.
fn end_as<'a>(end: End<'a>, results: Sequence<TypeId>, frames: Vec<Frame<'a>>) -> Ended<'a>
    ensures { result ≡ ended end.entry results frames.entry }
{
    match end {
        End::Returns(_value) => Ended::Never,
        End::Replies(bytes) => Ended::Completes(Ending::Replies(bytes)),
        End::Rejects(text) => Ended::Completes(Ending::Rejects(text)),
        End::Suspends(call, nodes, focus) => Ended::Completes(Ending::Waits(
            call,
            Body {
                nodes,
                results,
                focus,
                frames,
            },
        )),
        End::Sleeps => Ended::Completes(Ending::Sleeps),
        End::Traps(text) => Ended::Traps(text),
        End::Breaks => Ended::Never,
    }
}

// How an execution of a shared body comes out, so far.
fn reached_end<'a>(
    reached: Reached<'a>,
    results: Sequence<TypeId>,
    frames: Vec<Frame<'a>>,
) -> Ended<'a>
    ensures { result ≡ reached_end reached.entry results frames.entry }
{
    match reached {
        Reached::Still(_focus) => Ended::Never,
        Reached::Ended(end) => end_as(end, results, frames),
    }
}

/// What the execution of a shared body with results of these types comes to.
pub(crate) fn concluded<'a>(
    results: Sequence<TypeId>,
    rest: Rest<'a>,
    execution: Execution<'a>,
    reached: Reached<'a>,
) -> Ran<'a>
    ensures { result ≡ ran_of results rest.entry execution.entry reached.entry }
{
    let Execution { machine, calls } = execution;
    let Machine {
        arena,
        table,
        store,
        frames,
        prints,
    } = machine;
    let Rest {
        exports,
        first,
        made,
        came,
    } = rest;
    match reached_end(reached, results, frames) {
        Ended::Never => Ran::Still(table),
        Ended::Traps(text) => Ran::Traps(table, prints, text),
        Ended::Completes(ending) => Ran::Completes(Done {
            actor: Actor {
                arena,
                table,
                store,
                exports,
                first,
                made,
                came,
            },
            calls,
            prints,
            ending,
        }),
    }
}
