//! Whole programs.
ghost use Rattle.std.specs.Prelude.{◌≡◌, IfOk, OnOk};
ghost use Rattle.abstract_tree.specs.TreeView.{program as program_seen};
ghost use Rattle.value_scopes.specs.Values.{noted};
ghost use Rattle.met_types.specs.States.{Kept};
ghost use Rattle.desugaring.specs.Programs.{desugared};
ghost use Rattle.kernel_types.specs.Numbers.{definitions, number};
ghost use Rattle.kernel_parts.specs.Views.{list_of, tree_of};

use crate::programs::program_by;
use abstract_tree::Program;
use kernel_frames::Frames;
use kernel_parts::{ListPart, Part, Written, WrittenList};
use kernel_trees::{expression, list};
use met_types::Types;
use mo_num::Memory;
use std::alloc::Global;
use value_scopes::Note;

fn write(frames: &mut Frames, part: Part<'_>) -> Written
    ensures made { IfOk result (λ made. made ≡ tree_of part.entry.types.now frames.old part.entry.expression.now) }
    ensures same { OnOk result (frames.new ≡ frames.old) }
{
    expression(part.alloc, part.types, frames, part.expression)
}

fn write_list(frames: &mut Frames, part: ListPart<'_>) -> WrittenList
    ensures steps { IfOk result (λ made. made.steps ≡ (list_of part.entry.types.now frames.old part.entry.has_value part.entry.declarations.now).steps) }
    ensures last { IfOk result (λ made. made.last ≡ (list_of part.entry.types.now frames.old part.entry.has_value part.entry.declarations.now).last) }
    ensures frame { OnOk result (frames.new ≡ (list_of part.entry.types.now frames.old part.entry.has_value part.entry.declarations.now).frame) }
{
    list(
        part.alloc,
        part.types,
        frames,
        part.has_value,
        part.declarations,
    )
}

/// The typed program that a judged one is written out to, with the types of its nodes: Motoko language manual, sections "Programs" and "Actors".
/// The recursion is as deep as the program, and the parser lets only so many levels pass. Each public function of a judged program has the type of a
/// shared function noted at it, and each type at a node is one of the graph; for another program, which never comes, the answer is that memory is
/// lacking.
pub fn kernel_program(
    alloc: Global,
    program: &Program<Note>,
    types: Types,
) -> Result<typed_tree::Program, Memory>
    requires kept { Kept types }
    ensures { IfOk result (λ made. made ≡ desugared (definitions types) (number types) types.slots (program_seen (noted types.forms) program.now)) }
{
    program_by(alloc, program, types, write, write_list)
}
