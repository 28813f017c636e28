//! The functions of a list that have one place.
ghost use Rattle.std.specs.Prelude.{◌≡◌, ◌++◌, IfOk, OnOk, map, slice_get};
ghost use Rattle.met_types.specs.States.{State};
ghost use Rattle.kernel_declarations.specs.Becoming.{made_in, name_of};
ghost use Rattle.kernel_parts.specs.Writing.{Writes, WritesLists};
ghost use Rattle.kernel_pieces.specs.Ordered.{AreGroups, IsGroup, function_at, group_in, group_step};

use abstract_tree::Declaration;
use kernel_declarations::{push_function, push_function_name};
use kernel_frames::Frames;
use kernel_groups::{Groups, groups_of};
use kernel_names::Names;
use kernel_parts::{ListPart, Lists, Part, Written, WrittenList};
use kernel_places::places;
use mo_num::Memory;
use mo_syntax::Items;
use std::alloc::Global;
use typed_tree::{Function, Step};
use value_scopes::Note;

/// The functions of a list in groups, by the places that they have in the order of evaluation: Motoko language manual, section
/// "Declarations".
pub(crate) fn placed(alloc: Global, declarations: &[Declaration<Note>]) -> Result<Groups, Memory>
    ensures { (s : State) → IfOk result (λ made. AreGroups s declarations.now made) }
{
    let places = places(alloc, declarations)?;
    groups_of(alloc, places.as_slice())
}

/// Adds the name of the function at an index, if there is one.
fn push_name(
    alloc: Global,
    declarations: &[Declaration<Note>],
    index: usize,
    names: &mut Names,
) -> Result<(), Memory>
    ensures { (s : State) → OnOk result (names.new ≡ names.old ++ map name_of (function_at s (slice_get declarations.now index))) }
{
    if index < declarations.len() {
        let one = &declarations[index];
        push_function_name(alloc, one.form.get(), names)
    } else {
        Ok(())
    }
}

/// The names of the functions at these indexes.
fn group_names(
    alloc: Global,
    declarations: &[Declaration<Note>],
    indexes: &[usize],
) -> Result<Names, Memory>
    ensures { (s : State) → IfOk result (λ made. made ≡ map name_of (group_in s declarations.now indexes.now)) }
{
    let mut names = Names::new(alloc);
    for index in indexes {
        push_name(alloc, declarations, *index, &mut names)?;
    }
    Ok(names)
}

/// Adds the function at an index, if there is one.
fn push_at<
    F: Fn(&mut Frames, Part<'_>) -> Written,
    G: Fn(&mut Frames, ListPart<'_>) -> WrittenList,
>(
    lists: &Lists<'_, F, G>,
    frames: &mut Frames,
    declarations: &[Declaration<Note>],
    index: usize,
    made: &mut Items<Function>,
) -> Result<(), Memory>
    requires parts { Writes lists.now.layer.depth (F.pre lists.now.layer.write) (F.post lists.now.layer.write) }
    requires writes { WritesLists lists.now.layer.depth (G.pre lists.now.write_list) (G.post lists.now.write_list) }
    ensures made { OnOk result (made.new ≡ made.old ++ map (made_in frames.old) (function_at lists.now.layer.types.now (slice_get declarations.now index))) }
    ensures same { OnOk result (frames.new ≡ frames.old) }
{
    if index < declarations.len() {
        let one = &declarations[index];
        push_function(lists, frames, one.note, one.form.get(), made)
    } else {
        Ok(())
    }
}

/// The functions at these indexes.
fn group_functions<
    F: Fn(&mut Frames, Part<'_>) -> Written,
    G: Fn(&mut Frames, ListPart<'_>) -> WrittenList,
>(
    lists: &Lists<'_, F, G>,
    frames: &mut Frames,
    declarations: &[Declaration<Note>],
    indexes: &[usize],
) -> Result<Items<Function>, Memory>
    requires parts { Writes lists.now.layer.depth (F.pre lists.now.layer.write) (F.post lists.now.layer.write) }
    requires writes { WritesLists lists.now.layer.depth (G.pre lists.now.write_list) (G.post lists.now.write_list) }
    ensures made { IfOk result (λ made. made ≡ map (made_in frames.old) (group_in lists.now.layer.types.now declarations.now indexes.now)) }
    ensures same { OnOk result (frames.new ≡ frames.old) }
{
    let mut made = Items::new(lists.layer.alloc);
    for index in indexes {
        push_at(lists, frames, declarations, *index, &mut made)?;
    }
    Ok(made)
}

/// Adds the step of a group, where it is not empty.
fn push_group(functions: Items<Function>, steps: &mut Items<Step>) -> Result<(), Memory>
    ensures { OnOk result (steps.new ≡ steps.old ++ group_step functions) }
{
    if functions.is_empty() {
        Ok(())
    } else {
        steps.push(Step::Functions(functions))
    }
}

/// Adds the names of the functions at these indexes, of which the first is the nearest, and then one step for the functions, which know each
/// other.
pub(crate) fn write_group<
    F: Fn(&mut Frames, Part<'_>) -> Written,
    G: Fn(&mut Frames, ListPart<'_>) -> WrittenList,
>(
    lists: &Lists<'_, F, G>,
    frames: &mut Frames,
    declarations: &[Declaration<Note>],
    indexes: &[usize],
    steps: &mut Items<Step>,
) -> Result<(), Memory>
    requires parts { Writes lists.now.layer.depth (F.pre lists.now.layer.write) (F.post lists.now.layer.write) }
    requires writes { WritesLists lists.now.layer.depth (G.pre lists.now.write_list) (G.post lists.now.write_list) }
    ensures { OnOk result (IsGroup (group_in lists.now.layer.types.now declarations.now indexes.now) steps.old frames.old steps.new frames.new) }
{
    let names = group_names(lists.layer.alloc, declarations, indexes)?;
    frames.push_names(names.as_slice())?;
    let functions = group_functions(lists, frames, declarations, indexes)?;
    push_group(functions, steps)
}
