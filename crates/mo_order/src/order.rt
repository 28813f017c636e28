//! The test of order: the first place at which a value is used before it is defined.
ghost use Rattle.std.specs.Prelude.{◌≡◌, ◌+◌, ◌<◌, ◌∷◌, [], IfOk, Some, length};
ghost use Rattle.mo_names.specs.Order.{Misplaced, lists_in};
ghost use Rattle.mo_order.specs.Calls.{Mentioned};
ghost use Rattle.mo_order.specs.Early.{Ahead, EarlyFrom, LateAt, LateIn};
ghost use Rattle.mo_order.specs.Least.{LeastOf, OneOf};

use crate::calls::{Calls, calls_of};
use crate::program::lists_of_program;
use crate::reach::enter;
use crate::step::{Step, Steps};
use mo_name_table::NameTable;
use mo_num::Memory;
use mo_syntax::{Name, Place, Tree};
use std::alloc::Global;

/// Of two places, where they are there, the one that starts earlier.
fn earlier(a: Option<Place>, b: Option<Place>) -> Option<Place>
    ensures { LeastOf (OneOf a (λ p. b ≡ Some p)) result }
{
    match (a, b) {
        (Some(p), Some(q)) if q.start < p.start => b,
        (Some(_), _) => a,
        (None, _) => b,
    }
}

/// The place of the name, where it is late.
fn late_place(late: &NameTable, name: &Name) -> Option<Place>
    ensures { LeastOf (LateAt late.now (name.now ∷ [])) result }
{
    if late.contains(name) {
        Some(name.place())
    } else {
        None
    }
}

/// Of this place and those of the names that are late the one that starts first.
fn first_late(late: &NameTable, occurs: &[Name], least: Option<Place>) -> Option<Place>
    ensures { LeastOf (OneOf least (LateAt late.now occurs.now)) result }
{
    let mut first = least;
    for name in occurs {
        first = earlier(first, late_place(late, name));
    }
    first
}

/// Of this place and those of the names of a declaration that are late the one that starts first. A `func` or `class` may use what is late.
fn first_in_step(late: &NameTable, step: &Step, least: Option<Place>) -> Option<Place>
    ensures { LeastOf (OneOf least (LateIn late.now step.now)) result }
{
    if !step.functions().is_empty() {
        return least;
    }
    first_late(late, step.occurs(), least)
}

/// Tests the declaration at this index, where what is behind it was tested.
fn test_step(
    alloc: Global,
    steps: &[Step],
    calls: &Calls,
    index: usize,
    late: &mut NameTable,
    least: Option<Place>,
) -> Result<Option<Place>, Memory>
    requires within { index < length steps.now }
    requires calls { Mentioned steps.now calls.now.functions }
    ensures { IfOk result (λ first. Ahead steps.now (index + 1) late.old least → Ahead steps.now index late.new first) }
{
    let step = &steps[index];
    enter(alloc, steps, calls, step, late)?;
    Ok(first_in_step(late, step, least))
}

/// Tests a list from behind.
fn first_in_list(alloc: Global, steps: &[Step]) -> Result<Option<Place>, Memory>
    ensures { IfOk result (LeastOf (EarlyFrom steps.now 0)) }
{
    let calls = calls_of(alloc, steps)?;
    let mut late = NameTable::new(alloc);
    let mut least = None;
    for index in (0..steps.len()).rev() {
        least = test_step(alloc, steps, &calls, index, &mut late, least)?;
    }
    Ok(least)
}

/// Tests all lists of a tree.
fn first_in_lists(alloc: Global, lists: &[Steps]) -> Result<Option<Place>, Memory>
    ensures { IfOk result (LeastOf (Misplaced lists.now)) }
{
    let mut least = None;
    for one in lists {
        least = earlier(least, first_in_list(alloc, one.as_slice())?);
    }
    Ok(least)
}

/// The first place at which a value is used before it is defined, if there is one (Motoko language manual, "Declarations", "Sequence of declarations"). In a
/// list of declarations each `func` and `class` may be used before its place; another declaration uses the names that occur in it and, through each `func` or
/// `class` of the list that it uses, those that occur in that one's body. It is misplaced where it so uses what it defines itself or what is defined after it,
/// and the place is that of the name in it through which it does. The one error is that there is no memory.
pub fn first_misplaced(alloc: Global, tree: &Tree) -> Result<Option<Place>, Memory>
    ensures { IfOk result (LeastOf (Misplaced (lists_in tree.now))) }
{
    let lists = lists_of_program(alloc, tree)?;
    first_in_lists(alloc, lists.as_slice())
}
