//! The declarations of a list in the order of evaluation.
ghost use Rattle.std.specs.Prelude.{◌≡◌, ◌+◌, ◌<◌, ◌≤◌, Bool, OnOk, length};
ghost use Rattle.kernel_parts.specs.Writing.{Writes, WritesLists};
ghost use Rattle.kernel_pieces.specs.Ordered.{AreGroups, GoesOn, from_here};

use crate::groups::write_group;
use abstract_tree::Declaration;
use kernel_declarations::write_declaration;
use kernel_frames::Frames;
use kernel_groups::Groups;
use kernel_parts::{ListPart, Lists, Part, Written, WrittenList};
use mo_num::Memory;
use mo_syntax::Items;
use typed_tree::Step;
use value_scopes::Note;

/// The functions whose place is before the declaration at this index, and then that declaration, where it is not the value of the list.
fn write_place<
    F: Fn(&mut Frames, Part<'_>) -> Written,
    G: Fn(&mut Frames, ListPart<'_>) -> WrittenList,
>(
    lists: &Lists<'_, F, G>,
    frames: &mut Frames,
    declarations: &[Declaration<Note>],
    groups: &Groups,
    index: usize,
    steps: &mut Items<Step>,
) -> Result<(), Memory>
    requires parts { Writes lists.now.layer.depth (F.pre lists.now.layer.write) (F.post lists.now.layer.write) }
    requires writes { WritesLists lists.now.layer.depth (G.pre lists.now.write_list) (G.post lists.now.write_list) }
    requires within { index < length declarations.now }
    requires groups { AreGroups lists.now.layer.types.now declarations.now groups.now }
    ensures { (v : Bool) → OnOk result (GoesOn v (index + 1) declarations.now → from_here lists.now.layer.types.now v declarations.now index steps.old frames.old ≡ from_here lists.now.layer.types.now v declarations.now (index + 1) steps.new frames.new) }
{
    write_group(lists, frames, declarations, groups.at(index), steps)?;
    write_declaration(lists, frames, &declarations[index], steps)
}

/// So many declarations of a list from its beginning, with the functions whose places are before them, where none of them is the value of the
/// list.
pub(crate) fn write_places<
    F: Fn(&mut Frames, Part<'_>) -> Written,
    G: Fn(&mut Frames, ListPart<'_>) -> WrittenList,
>(
    lists: &Lists<'_, F, G>,
    frames: &mut Frames,
    declarations: &[Declaration<Note>],
    groups: &Groups,
    count: usize,
    steps: &mut Items<Step>,
) -> Result<(), Memory>
    requires parts { Writes lists.now.layer.depth (F.pre lists.now.layer.write) (F.post lists.now.layer.write) }
    requires writes { WritesLists lists.now.layer.depth (G.pre lists.now.write_list) (G.post lists.now.write_list) }
    requires within { count ≤ length declarations.now }
    requires groups { AreGroups lists.now.layer.types.now declarations.now groups.now }
    ensures { (v : Bool) → OnOk result (GoesOn v count declarations.now → from_here lists.now.layer.types.now v declarations.now 0 steps.old frames.old ≡ from_here lists.now.layer.types.now v declarations.now count steps.new frames.new) }
{
    for index in 0..count {
        write_place(lists, frames, declarations, groups, index, steps)?;
    }
    Ok(())
}
