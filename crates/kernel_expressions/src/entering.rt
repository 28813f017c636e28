//! An expression, by the writing out of its parts.
ghost use Rattle.std.specs.Prelude.{◌≡◌, IfOk, OnOk};
ghost use Rattle.kernel_parts.specs.Views.{tree_of};
ghost use Rattle.kernel_parts.specs.Writing.{Writes, WritesLists};

use crate::forms::by_form;
use kernel_frames::Frames;
use kernel_parts::{Layer, ListPart, Lists, Part, Written, WrittenList};

/// An expression, by the writing out of its parts and of its lists of declarations, which have at most so many levels: Motoko language
/// manual, section "Expressions".
pub fn written_by<
    F: Fn(&mut Frames, Part<'_>) -> Written + Copy,
    G: Fn(&mut Frames, ListPart<'_>) -> WrittenList + Copy,
>(frames: &mut Frames, part: Part<'_>, depth: usize, write: F, write_list: G) -> Written
    requires writes { Writes depth (F.pre write) (F.post write) }
    requires lists { WritesLists depth (G.pre write_list) (G.post write_list) }
    ensures made { IfOk result (λ made. made ≡ tree_of part.entry.types.now frames.old part.entry.expression.now) }
    ensures same { OnOk result (frames.new ≡ frames.old) }
{
    let layer = Layer {
        alloc: part.alloc,
        types: part.types,
        depth,
        write,
    };
    let lists = Lists { layer, write_list };
    by_form(
        &lists,
        frames,
        part.expression.note,
        part.expression.form.get(),
    )
}
