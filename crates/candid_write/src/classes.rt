//! Classes of equal types, by rounds of refinement.
ghost use Rattle.std.specs.Prelude.{◌≡◌, ◌<◌, ◌↔◌, ℕ, IfOk, Some, length, replicate, slice_get, slice_index};
ghost use Rattle.mo_types.specs.declared.wire.Plain.TheVariants as plain;
ghost use Rattle.mo_types.specs.declared.wire.Wire.TheVariants.{Simple};
ghost use Rattle.candid_types.specs.Shapes.{shape_at};
ghost use Rattle.candid_write.specs.Classes.{AreClasses};
ghost use Rattle.candid_write.specs.Signature.{signature};
ghost use Rattle.candid_write.specs.Rounds.{Counts, PutsAt, Refines, lists};

use crate::signature::signature;
use candid_types::Shapes;
use indexmap::IndexSet;
use mo_num::Memory;
use std::alloc::Global;

/// The place of the signature of a number in the set, where it is put if it is not there yet.
fn place_of(
    alloc: Global,
    shapes: &Shapes,
    classes: &[usize],
    number: usize,
    seen: &mut IndexSet<Vec<u64>>,
) -> Result<usize, Memory>
    requires { number < length shapes.now }
    ensures { IfOk result (λ place. PutsAt (lists seen.old.keys) (signature classes.now (shape_at shapes.now number)) place (lists seen.new.keys)) }
{
    let signature = match shapes.get(number) {
        Some(head) => signature(alloc, classes, head)?,
        None => unreachable!(),
    };
    let (place, _) = seen.insert_full(signature)?;
    Ok(place)
}

/// One round: the types whose heads are equal up to the old classes have one new class. With how many classes there
/// are now.
fn refine(alloc: Global, shapes: &Shapes, classes: &[usize]) -> Result<(Vec<usize>, usize), Memory>
    ensures classes { IfOk result (λ next. Refines shapes.now classes.now next.0.items) }
    ensures count { IfOk result (λ next. Counts next.0.items next.1) }
{
    let mut seen = IndexSet::new(alloc);
    let mut next = Vec::with_capacity(alloc, shapes.len())?;
    for number in 0..shapes.len() {
        next.push(place_of(alloc, shapes, classes, number, &mut seen)?)?;
    }
    Ok((next, seen.len()))
}

fn zeros(alloc: Global, count: usize) -> Result<Vec<usize>, Memory>
    ensures { IfOk result (λ made. made.items ≡ replicate count 0) }
{
    Ok(vec![in alloc; 0; count]?)
}

/// The class of each number: two types have one class exactly where they are equal. Takes time by the numbers times
/// the fields and parts of the table.
pub fn classes_of(alloc: Global, shapes: &Shapes) -> Result<Vec<usize>, Memory>
    requires { slice_get shapes.now 0 ≡ Some (Simple plain.Empty) }
    ensures { IfOk result (λ classes. AreClasses shapes.now classes.items) }
{
    let mut classes = zeros(alloc, shapes.len())?;
    let mut count = 1;
    // Each round but the last makes more classes, and there are at most as many as types.
    loop {
        let (next, more) = refine(alloc, shapes, classes.as_slice())?;
        if more == count {
            return Ok(next);
        }
        classes = next;
        count = more;
    }
}
