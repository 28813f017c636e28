//! Marking functions with their places.
ghost use Rattle.std.specs.Prelude.{◌≡◌, ◌++◌, ◌∷◌, ◌<◌, [], OnOk, length};
ghost use Rattle.kernel_places.specs.Marking.{Marks, name_list};
ghost use Rattle.kernel_places.specs.Reaching.{at};

use crate::step::Step;
use kernel_names::Names;
use mo_num::{Bytes, Memory};
use std::alloc::Global;

/// Adds the name of the function at this index.
fn push_name(alloc: Global, steps: &[Step], index: usize, late: &mut Names) -> Result<(), Memory>
    requires { index < length steps.now }
    ensures { OnOk result (late.new ≡ late.old ++ name_list (at steps.now index).function) }
{
    match steps[index].function() {
        None => Ok(()),
        Some(name) => late.push(Bytes::from_slice(alloc, name.as_slice())?),
    }
}

/// Marks a function that has no mark.
fn mark_one(
    alloc: Global,
    steps: &[Step],
    place: usize,
    index: usize,
    marks: &mut [usize],
    late: &mut Names,
) -> Result<(), Memory>
    requires some { 0 < place }
    requires len { length marks.old ≡ length steps.now }
    ensures { OnOk result (Marks steps.now place (index ∷ []) marks.old late.old marks.new late.new) }
{
    if index >= marks.len() {
        return Ok(());
    }
    if marks[index] != 0 {
        return Ok(());
    }
    marks[index] = place;
    push_name(alloc, steps, index, late)
}

/// Marks those of these functions that have no mark.
pub(crate) fn mark_all(
    alloc: Global,
    steps: &[Step],
    place: usize,
    found: &[usize],
    marks: &mut [usize],
    late: &mut Names,
) -> Result<(), Memory>
    requires some { 0 < place }
    requires len { length marks.old ≡ length steps.now }
    ensures { OnOk result (Marks steps.now place found.now marks.old late.old marks.new late.new) }
{
    for index in found {
        mark_one(alloc, steps, place, *index, marks, late)?;
    }
    Ok(())
}
