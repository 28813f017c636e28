//! The names through which what is defined late is reached.
ghost use Rattle.std.specs.Prelude.{◌≡◌, ◌++◌, ◌<◌, [], OnOk, length, slice_index_or, List, ℕ};
ghost use Rattle.mo_name_table.specs.Places.{texts};
ghost use Rattle.mo_scopes.specs.Findings.{Texts};
ghost use Rattle.mo_names.specs.Order as order;
ghost use Rattle.mo_order.specs.Calls.{Mentioned, mentions};
ghost use Rattle.mo_order.specs.Reach.{Reached, Grown};

use crate::calls::Calls;
use crate::step::Step;
use mo_name_table::NameTable;
use mo_num::Memory;
use mo_syntax::Name;
use std::alloc::Global;

/// Adds copies of the names that are not there yet.
#[tactic(auto, using(crate::proofs::Growing::grown_more_at, crate::proofs::Growing::grown_kept_at, crate::proofs::Growing::grown_none))]
fn push_new(late: &mut NameTable, names: &[Name]) -> Result<(), Memory>
    ensures { OnOk result (Grown late.old (texts names.now) late.new) }
{
    for name in names {
        if !late.contains(name) {
            late.push_copy(name)?;
        }
    }
    Ok(())
}

/// Adds the functions in whose bodies the name at this place occurs.
fn grow(alloc: Global, calls: &Calls, late: &mut NameTable, next: usize) -> Result<(), Memory>
    requires { next < length late.old }
    ensures { (steps : List order.Step) → OnOk result (Mentioned steps calls.now.functions → Grown late.old (mentions steps (slice_index_or late.old next [])) late.new) }
{
    let found = calls.at(alloc, &late.as_slice()[next])?;
    push_new(late, found)
}

/// Adds all functions that reach the names from this place on. No vector is as long as the greatest number, so the loop ends by itself.
#[tactic(auto, using(crate::proofs::Growing::grow_all, crate::proofs::Growing::whole))]
fn close(
    alloc: Global,
    steps: &[Step],
    calls: &Calls,
    late: &mut NameTable,
    from: usize,
) -> Result<(), Memory>
    requires { Mentioned steps.now calls.now.functions }
    ensures { (targets : Texts) → OnOk result (Reached steps.now targets late.old from → Reached steps.now targets late.new (length late.new)) }
{
    for next in from..usize::MAX {
        if next >= late.len() {
            return Ok(());
        }
        grow(alloc, calls, late, next)?;
    }
    Err(Memory)
}

/// Adds what a declaration defines, and all functions that reach it.
#[tactic(auto, using(crate::proofs::Growing::define))]
pub(crate) fn enter(
    alloc: Global,
    steps: &[Step],
    calls: &Calls,
    step: &Step,
    late: &mut NameTable,
) -> Result<(), Memory>
    requires { Mentioned steps.now calls.now.functions }
    ensures { (targets : Texts) → OnOk result (Reached steps.now targets late.old (length late.old) → Reached steps.now (step.now.defines ++ targets) late.new (length late.new)) }
{
    let from = late.len();
    late.push_copies(step.defines())?;
    close(alloc, steps, calls, late, from)
}
