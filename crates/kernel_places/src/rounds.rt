//! Marking the functions of a list, from its last declaration to the first.
ghost use Rattle.std.specs.Prelude.{◌≡◌, ◌+◌, ◌++◌, ◌<◌, ◌≤◌, List, [], IfOk, OnOk, length, slice_index_or};
ghost use Rattle.typed_tree.specs.Placing.{Declared};
ghost use Rattle.typing_rules.specs.AbstractSyntax as syntax;
ghost use Rattle.kernel_places.specs.Marking.{Closing, Round};
ghost use Rattle.kernel_places.specs.Using.{Used, uses_below};

use crate::marks::mark_all;
use crate::step::Step;
use crate::users::Users;
use kernel_names::Names;
use mo_num::{Bytes, Memory};
use std::alloc::Global;

/// The functions in which the late name at this index occurs.
fn found_at<'a>(
    alloc: Global,
    users: &'a Users,
    late: &Names,
    next: usize,
) -> Result<&'a [usize], Memory>
    requires { next < length late.now }
    ensures { (steps : List Declared) → IfOk result (λ found. Used steps users.now.functions → found.now ≡ uses_below (length steps) steps (slice_index_or late.now next [])) }
{
    users.at(alloc, &late.as_slice()[next])
}

/// Marks the functions in which the late name at this index occurs.
fn grow(
    alloc: Global,
    steps: &[Step],
    users: &Users,
    index: usize,
    next: usize,
    marks: &mut [usize],
    late: &mut Names,
) -> Result<(), Memory>
    requires within { next < length late.old }
    requires declared { index < length steps.now }
    requires len { length marks.old ≡ length steps.now }
    requires used { Used steps.now users.now.functions }
    ensures { (before : List syntax.Bytes) → OnOk result (length before ≤ next → Closing steps.now index before marks.old late.old next → Closing steps.now index before marks.new late.new (next + 1)) }
{
    let found = found_at(alloc, users, late, next)?;
    mark_all(alloc, steps, index + 1, found, marks, late)
}

/// Marks all that leads to the declaration at this index, over the late names from this one on. No list is as long as the greatest number, so the
/// loop ends by itself.
fn close(
    alloc: Global,
    steps: &[Step],
    users: &Users,
    index: usize,
    from: usize,
    marks: &mut [usize],
    late: &mut Names,
) -> Result<(), Memory>
    requires declared { index < length steps.now }
    requires len { length marks.old ≡ length steps.now }
    requires used { Used steps.now users.now.functions }
    ensures { (before : List syntax.Bytes) → OnOk result (length before ≡ from → Closing steps.now index before marks.old late.old from → Round steps.now index marks.new late.new) }
{
    for next in from..usize::MAX {
        if next >= late.len() {
            return Ok(());
        }
        grow(alloc, steps, users, index, next, marks, late)?;
    }
    Err(Memory)
}

/// Adds copies of names.
fn push_copies(alloc: Global, names: &[Bytes], late: &mut Names) -> Result<(), Memory>
    ensures { OnOk result (late.new ≡ late.old ++ names.now) }
{
    for name in names {
        late.push(Bytes::from_slice(alloc, name.as_slice())?)?;
    }
    Ok(())
}

/// Marks all that leads to the declaration at this index, where what leads to those behind it is marked.
fn mark_round(
    alloc: Global,
    steps: &[Step],
    users: &Users,
    index: usize,
    marks: &mut [usize],
    late: &mut Names,
) -> Result<(), Memory>
    requires declared { index < length steps.now }
    requires len { length marks.old ≡ length steps.now }
    requires used { Used steps.now users.now.functions }
    ensures { OnOk result (Round steps.now (index + 1) marks.old late.old → Round steps.now index marks.new late.new) }
{
    let from = late.len();
    push_copies(alloc, steps[index].defines(), late)?;
    close(alloc, steps, users, index, from, marks, late)
}

/// Marks each function of the list.
pub(crate) fn mark_list(
    alloc: Global,
    steps: &[Step],
    users: &Users,
    marks: &mut [usize],
    late: &mut Names,
) -> Result<(), Memory>
    requires len { length marks.old ≡ length steps.now }
    requires used { Used steps.now users.now.functions }
    ensures { OnOk result (Round steps.now (length steps.now) marks.old late.old → Round steps.now 0 marks.new late.new) }
{
    for index in (0..steps.len()).rev() {
        mark_round(alloc, steps, users, index, marks, late)?;
    }
    Ok(())
}
