//! The recursion over expressions and lists of declarations.
ghost use Rattle.std.specs.Prelude.{◌≡◌, IfOk, OnOk};
ghost use Rattle.kernel_parts.specs.Views.{list_of, tree_of};
ghost use Rattle.kernel_parts.specs.Writing.{Writes, WritesLists};

use abstract_tree::{Declaration, Expression};
use kernel_expressions::written_by;
use kernel_frames::Frames;
use kernel_parts::{Layer, ListPart, Lists, Part, Written, WrittenList};
use kernel_pieces::list_by;
use kernel_types::KernelTypes;
use mo_num::Memory;
use std::alloc::Global;
use value_scopes::Note;

/// A list, by the writing out of its parts and of the lists in it, which have at most so many levels.
pub fn listed_by<
    F: Fn(&mut Frames, Part<'_>) -> Written + Copy,
    G: Fn(&mut Frames, ListPart<'_>) -> WrittenList + Copy,
>(frames: &mut Frames, part: ListPart<'_>, depth: usize, write: F, write_list: G) -> WrittenList
    requires writes { Writes depth (F.pre write) (F.post write) }
    requires lists { WritesLists depth (G.pre write_list) (G.post write_list) }
    ensures steps { IfOk result (λ made. made.steps ≡ (list_of part.entry.types.now frames.old part.entry.has_value part.entry.declarations.now).steps) }
    ensures last { IfOk result (λ made. made.last ≡ (list_of part.entry.types.now frames.old part.entry.has_value part.entry.declarations.now).last) }
    ensures frame { OnOk result (frames.new ≡ (list_of part.entry.types.now frames.old part.entry.has_value part.entry.declarations.now).frame) }
{
    let layer = Layer {
        alloc: part.alloc,
        types: part.types,
        depth,
        write,
    };
    let lists = Lists { layer, write_list };
    list_by(&lists, frames, part.has_value, part.declarations)
}

// An expression of at most so many levels. One of more levels than there are addresses is none that memory holds.
#[cycle(kernel_trees)]
fn expression_within(frames: &mut Frames, part: Part<'_>) -> Written
    ensures made { IfOk result (λ made. made ≡ tree_of part.entry.types.now frames.old part.entry.expression.now) }
    ensures same { OnOk result (frames.new ≡ frames.old) }
{
    if part.depth == 0 {
        return Err(Memory);
    }
    written_by(frames, part, part.depth - 1, expression_within, list_within)
}

// The same of a list of declarations.
#[cycle(kernel_trees)]
fn list_within(frames: &mut Frames, part: ListPart<'_>) -> WrittenList
    ensures steps { IfOk result (λ made. made.steps ≡ (list_of part.entry.types.now frames.old part.entry.has_value part.entry.declarations.now).steps) }
    ensures last { IfOk result (λ made. made.last ≡ (list_of part.entry.types.now frames.old part.entry.has_value part.entry.declarations.now).last) }
    ensures frame { OnOk result (frames.new ≡ (list_of part.entry.types.now frames.old part.entry.has_value part.entry.declarations.now).frame) }
{
    if part.depth == 0 {
        return Err(Memory);
    }
    listed_by(frames, part, part.depth - 1, expression_within, list_within)
}

/// The typed expression that a judged one is written out to, with what stands around it: Motoko language manual, section
/// "Expressions". The recursion is as deep as the expression, and the parser lets only so many levels pass.
pub fn expression(
    alloc: Global,
    types: &KernelTypes,
    frames: &mut Frames,
    of: &Expression<Note>,
) -> Written
    ensures made { IfOk result (λ made. made ≡ tree_of types.now frames.old of.now) }
    ensures same { OnOk result (frames.new ≡ frames.old) }
{
    let part = Part {
        alloc,
        types,
        depth: usize::MAX,
        expression: of,
    };
    expression_within(frames, part)
}

/// The steps that a list of declarations is written out to, and the value of a last expression, where the list has a value: Motoko
/// language manual, section "Declarations". What stands around its end is left. The recursion is as deep as the list.
pub fn list(
    alloc: Global,
    types: &KernelTypes,
    frames: &mut Frames,
    has_value: bool,
    declarations: &[Declaration<Note>],
) -> WrittenList
    ensures steps { IfOk result (λ made. made.steps ≡ (list_of types.now frames.old has_value declarations.now).steps) }
    ensures last { IfOk result (λ made. made.last ≡ (list_of types.now frames.old has_value declarations.now).last) }
    ensures frame { OnOk result (frames.new ≡ (list_of types.now frames.old has_value declarations.now).frame) }
{
    let part = ListPart {
        alloc,
        types,
        depth: usize::MAX,
        has_value,
        declarations,
    };
    list_within(frames, part)
}
