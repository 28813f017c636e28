//! The execution in which an actor saves: its hook before an upgrade, and then its stable variables.
ghost use Rattle.std.specs.Prelude.{◌≡◌, IfOk};
ghost use Rattle.arena_equality.specs.Own.{AreOwnLabels};
ghost use Rattle.value_arena.specs.Growth.{IsWithin};
ghost use Rattle.arena_actors.specs.States.{IsSound};
ghost use Rattle.arena_machine.specs.Machines.{IsSound as IsSoundMachine};
ghost use Rattle.arena_saving.specs.Saving.{keeping_as, IsEnding, IsKeeping, IsReaching, IsSaved, IsSavingFrom, saving_frames};

use crate::exports::cells_of;
use crate::held::held_in;
use crate::hook::begin;
use crate::saved::{Keeping, Saved};
use crate::variables::variables;
use arena_actors::Actor;
use arena_executions::{End, Execution, Reached, run};
use arena_machine::Machine;
use arena_starts::alone;
use arena_states::Frame;
use mo_num::{Memory, Principal, Sequence};
use mo_types::{Datum, TypeGraph};
use std::alloc::Global;
use typed_tree::{Program, StableVariable};
use value_arena::ValueId;

// The frame of the body that saves, which has a node for each stable variable. 2^32 of them are want of memory.
fn frames_of<'a>(alloc: Global, stable: &[StableVariable]) -> Result<Vec<Frame<'a>>, Memory>
    ensures { IfOk result (λ fs. fs.items ≡ saving_frames stable.now) }
{
    let Ok(nodes) = u32::try_from(stable.len()) else {
        return Err(Memory);
    };
    let mut frames = Vec::new(alloc);
    frames.push(Frame::Returning(nodes))?;
    Ok(frames)
}

// The machine of an actor in these frames.
fn machine_of<'a>(alloc: Global, actor: Actor<'a>, frames: Vec<Frame<'a>>) -> Machine<'a>
    ensures { IsSavingFrom actor.entry frames.entry.items result }
{
    let Actor {
        arena,
        table,
        store,
        exports: _exports,
        first: _first,
        made: _made,
        came: _came,
    } = actor;
    Machine {
        arena,
        table,
        store,
        frames,
        prints: Sequence::new(alloc),
    }
}

// With the parts of the stable variables, or none.
fn keeping<'a>(machine: Machine<'a>, parts: Option<Vec<Vec<Datum>>>) -> Saved<'a>
    ensures { result ≡ keeping_as machine.entry parts }
{
    let Machine {
        arena: _arena,
        table,
        store: _store,
        frames: _frames,
        prints,
    } = machine;
    match parts {
        Some(parts) => Saved::Keeps(Keeping {
            table,
            prints,
            parts,
        }),
        None => Saved::Still(table),
    }
}

// What is saved where the hook has ended.
fn kept<'a>(
    alloc: Global,
    machine: Machine<'a>,
    exports: ValueId,
    types: &TypeGraph,
    stable: &[StableVariable],
) -> Result<Saved<'a>, Memory>
    requires sound { IsSoundMachine machine }
    requires exports { IsWithin machine.arena exports }
    ensures { IfOk result (λ s. IsKeeping types.now stable.now machine.entry exports s) }
{
    let cells = cells_of(alloc, &machine.arena, exports)?;
    let values = held_in(
        alloc,
        &machine.arena,
        machine.store.as_slice(),
        cells.as_slice(),
    )?;
    let parts = variables(alloc, &machine.arena, types, stable, values.as_slice())?;
    Ok(keeping(machine, parts))
}

// What comes of where the hook has ended.
fn ended_as<'a>(
    alloc: Global,
    machine: Machine<'a>,
    exports: ValueId,
    types: &TypeGraph,
    stable: &[StableVariable],
    end: End<'a>,
) -> Result<Saved<'a>, Memory>
    requires sound { IsSoundMachine machine }
    requires exports { IsWithin machine.arena exports }
    ensures { IfOk result (λ s. IsEnding types.now stable.now machine.entry exports end.entry s) }
{
    match end {
        End::Returns(_value) => kept(alloc, machine, exports, types, stable),
        End::Traps(text) => Ok(Saved::Traps(machine.table, machine.prints, text)),
        _ => Ok(Saved::Still(machine.table)),
    }
}

// What comes of where it has come to.
fn saved_as<'a>(
    alloc: Global,
    machine: Machine<'a>,
    exports: ValueId,
    types: &TypeGraph,
    stable: &[StableVariable],
    reached: Reached<'a>,
) -> Result<Saved<'a>, Memory>
    requires sound { IsSoundMachine machine }
    requires exports { IsWithin machine.arena exports }
    ensures { IfOk result (λ s. IsReaching types.now stable.now machine.entry exports reached.entry s) }
{
    match reached {
        Reached::Still(_focus) => Ok(Saved::Still(machine.table)),
        Reached::Ended(end) => ended_as(alloc, machine, exports, types, stable, end),
    }
}

/// What an actor saves within so many turns: exactly what the meaning says.
pub fn save<'a>(
    alloc: Global,
    actor: Actor<'a>,
    program: &Program,
    own: &Principal,
    turns: u64,
) -> Result<Saved<'a>, Memory>
    requires labels { AreOwnLabels program.now.types }
    requires sound { IsSound actor }
    ensures { IfOk result (λ s. IsSaved program.now own.now turns actor.entry s) }
{
    let around = alone(alloc, own)?;
    let frames = frames_of(alloc, program.stable.as_slice())?;
    let exports = actor.exports;
    let mut execution = Execution {
        machine: machine_of(alloc, actor, frames),
        calls: Sequence::new(alloc),
    };
    let focus = begin(alloc, &mut execution.machine.arena, exports)?;
    let reached = run(alloc, &mut execution, &program.types, &around, focus, turns)?;
    let Execution {
        machine,
        calls: _calls,
    } = execution;
    saved_as(
        alloc,
        machine,
        exports,
        &program.types,
        program.stable.as_slice(),
        reached,
    )
}
