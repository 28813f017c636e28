//! Lists of declarations.
ghost use Rattle.std.specs.Prelude.{◌≡◌, IfOk, OnOk, false, true};
ghost use Rattle.kernel_parts.specs.Views.{list_of};
ghost use Rattle.kernel_parts.specs.Writing.{Writes, WritesLists};
ghost use Rattle.kernel_pieces.specs.Ordered.{AreGroups, EndsIn, IsArranged};

use crate::groups::{placed, write_group};
use crate::order::write_places;
use crate::values::value_of;
use abstract_tree::{Declaration, Expression};
use kernel_frames::Frames;
use kernel_groups::Groups;
use kernel_parts::{Arranged, ListPart, Lists, Part, Written, WrittenList};
use mo_syntax::Items;
use value_scopes::Note;

/// A list without a value.
fn whole<F: Fn(&mut Frames, Part<'_>) -> Written, G: Fn(&mut Frames, ListPart<'_>) -> WrittenList>(
    lists: &Lists<'_, F, G>,
    frames: &mut Frames,
    declarations: &[Declaration<Note>],
    groups: &Groups,
) -> WrittenList
    requires parts { Writes lists.now.layer.depth (F.pre lists.now.layer.write) (F.post lists.now.layer.write) }
    requires writes { WritesLists lists.now.layer.depth (G.pre lists.now.write_list) (G.post lists.now.write_list) }
    requires groups { AreGroups lists.now.layer.types.now declarations.now groups.now }
    ensures { IfOk result (λ made. IsArranged (list_of lists.now.layer.types.now frames.old false declarations.now) made frames.new) }
{
    let mut steps = Items::new(lists.layer.alloc);
    let count = declarations.len();
    write_places(lists, frames, declarations, groups, count, &mut steps)?;
    write_group(lists, frames, declarations, groups.at(count), &mut steps)?;
    Ok(Arranged { steps, last: None })
}

/// A list with the value of its last expression.
fn valued<F: Fn(&mut Frames, Part<'_>) -> Written, G: Fn(&mut Frames, ListPart<'_>) -> WrittenList>(
    lists: &Lists<'_, F, G>,
    frames: &mut Frames,
    declarations: &[Declaration<Note>],
    groups: &Groups,
    value: &Expression<Note>,
) -> WrittenList
    requires parts { Writes lists.now.layer.depth (F.pre lists.now.layer.write) (F.post lists.now.layer.write) }
    requires writes { WritesLists lists.now.layer.depth (G.pre lists.now.write_list) (G.post lists.now.write_list) }
    requires groups { AreGroups lists.now.layer.types.now declarations.now groups.now }
    requires ends { EndsIn lists.now.layer.types.now declarations.now value.now }
    ensures { IfOk result (λ made. IsArranged (list_of lists.now.layer.types.now frames.old true declarations.now) made frames.new) }
{
    let mut steps = Items::new(lists.layer.alloc);
    let count = declarations.len() - 1;
    write_places(lists, frames, declarations, groups, count, &mut steps)?;
    write_group(lists, frames, declarations, groups.at(count), &mut steps)?;
    let last = lists.layer.part(frames, value)?;
    Ok(Arranged {
        steps,
        last: Some(last),
    })
}

/// A list of declarations in the order of evaluation, by the writing out of its parts and of the lists in it. It has the value of its last
/// expression or has none: Motoko language manual, sections "Declarations" and "Blocks". The names around its end are left.
pub fn list_by<
    F: Fn(&mut Frames, Part<'_>) -> Written,
    G: Fn(&mut Frames, ListPart<'_>) -> WrittenList,
>(
    lists: &Lists<'_, F, G>,
    frames: &mut Frames,
    has_value: bool,
    declarations: &[Declaration<Note>],
) -> WrittenList
    requires writes { Writes lists.now.layer.depth (F.pre lists.now.layer.write) (F.post lists.now.layer.write) }
    requires lists { WritesLists lists.now.layer.depth (G.pre lists.now.write_list) (G.post lists.now.write_list) }
    ensures steps { IfOk result (λ made. made.steps ≡ (list_of lists.now.layer.types.now frames.old has_value declarations.now).steps) }
    ensures last { IfOk result (λ made. made.last ≡ (list_of lists.now.layer.types.now frames.old has_value declarations.now).last) }
    ensures frame { OnOk result (frames.new ≡ (list_of lists.now.layer.types.now frames.old has_value declarations.now).frame) }
{
    let groups = placed(lists.layer.alloc, declarations)?;
    match value_of(has_value, declarations) {
        Some(value) => valued(lists, frames, declarations, &groups, value),
        None => whole(lists, frames, declarations, &groups),
    }
}
