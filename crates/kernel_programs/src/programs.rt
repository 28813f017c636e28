//! Programs.
ghost use Rattle.std.specs.Prelude.{◌≡◌, IfOk, List};
ghost use Rattle.mo_types.specs.Graph.{Slot};
ghost use Rattle.mo_types.specs.Sub.{Each};
ghost use Rattle.abstract_tree.specs.TreeView.{program as program_seen};
ghost use Rattle.value_scopes.specs.Values.{noted};
ghost use Rattle.met_types.specs.States.{Kept};
ghost use Rattle.desugaring.specs.Programs.{desugared};
ghost use Rattle.kernel_types.specs.Numbers.{definitions, number};
ghost use Rattle.kernel_parts.specs.Writing.{Writes, WritesLists};
ghost use Rattle.kernel_methods.specs.Shared.{SharedIn};
ghost use Rattle.kernel_programs.specs.Actors.{desugared_in, typed_by};

use crate::actors::{Actor, written_actor};
use abstract_tree::Program;
use kernel_frames::Frames;
use kernel_methods::are_shared;
use kernel_parts::{Layer, ListPart, Lists, Part, Written, WrittenList};
use kernel_types::KernelTypes;
use met_types::Types;
use mo_num::Memory;
use std::alloc::Global;
use value_scopes::Note;

/// The actor of a program, whose public functions have each the type of a shared function noted at it.
fn program_actor<
    F: Fn(&mut Frames, Part<'_>) -> Written + Copy,
    G: Fn(&mut Frames, ListPart<'_>) -> WrittenList + Copy,
>(
    alloc: Global,
    types: &KernelTypes,
    program: &Program<Note>,
    write: F,
    write_list: G,
) -> Result<Actor, Memory>
    requires writes { Writes 0 (F.pre write) (F.post write) }
    requires lists { WritesLists 0 (G.pre write_list) (G.post write_list) }
    requires shared { Each (SharedIn types.now) program.now.fields }
    ensures { IfOk result (λ made. (slots : List Slot) → typed_by slots made ≡ desugared_in types.now slots program.now) }
{
    let layer = Layer {
        alloc,
        types,
        depth: 0,
        write,
    };
    let lists = Lists { layer, write_list };
    written_actor(&lists, program)
}

/// The typed program that a judged one is written out to, with the types of its nodes, by the writing out of expressions and lists: Motoko language
/// manual, sections "Programs" and "Actors". Each public function of a judged program has the type of a shared function noted at it, and each type
/// at a node is one of the graph; for another program, which never comes, the answer is that memory is lacking.
pub(crate) fn program_by<
    F: Fn(&mut Frames, Part<'_>) -> Written + Copy,
    G: Fn(&mut Frames, ListPart<'_>) -> WrittenList + Copy,
>(
    alloc: Global,
    program: &Program<Note>,
    types: Types,
    write: F,
    write_list: G,
) -> Result<typed_tree::Program, Memory>
    requires kept { Kept types }
    requires writes { Writes 0 (F.pre write) (F.post write) }
    requires lists { WritesLists 0 (G.pre write_list) (G.post write_list) }
    ensures { IfOk result (λ made. made ≡ desugared (definitions types) (number types) types.slots (program_seen (noted types.forms) program.now)) }
{
    if !are_shared(&types, program.fields.as_slice()) {
        return Err(Memory);
    }
    let types = KernelTypes::new(types);
    let made = program_actor(alloc, &types, program, write, write_list)?;
    Ok(made.with_types(types.into_graph()))
}
