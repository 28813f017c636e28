//! Records that contain themselves through records alone.
ghost use Rattle.std.specs.Prelude.{◌≡◌, IfOk, OnOk, true, false, nat_eq, slice_get};
ghost use Rattle.indexmap.specs.IndexSet.{contains, insert_all};
ghost use Rattle.candid_types.specs.Inside.{parts_of};
ghost use Rattle.candid_read.specs.Endless.{AreEndless, Encloses, fields_of};

use candid_types::Shapes;
use indexmap::IndexSet;
use mo_num::Memory;
use mo_types::{Entry, Wire};
use std::alloc::Global;

/// Puts the types of fields that are not there yet.
fn add_all(seen: &mut IndexSet<usize>, fields: &[Entry<usize>]) -> Result<(), Memory>
    ensures { OnOk result (seen.new.keys ≡ insert_all nat_eq seen.old.keys (parts_of fields.now)) }
{
    for field in fields {
        seen.insert(field.part)?;
    }
    Ok(())
}

/// Puts the types of a record's fields that are not there yet.
fn add_fields(shapes: &Shapes, of: usize, seen: &mut IndexSet<usize>) -> Result<(), Memory>
    ensures { OnOk result (seen.new.keys ≡ insert_all nat_eq seen.old.keys (fields_of shapes.now of)) }
{
    match shapes.get(of) {
        Some(Wire::Record(fields)) => add_all(seen, fields.as_slice()),
        _ => Ok(()),
    }
}

fn type_at(seen: &IndexSet<usize>, place: usize) -> Option<usize>
    ensures { result ≡ slice_get seen.now.keys place }
{
    seen.get_index(place).copied()
}

fn is_there(seen: &IndexSet<usize>, of: usize) -> bool
    ensures { result ≡ contains nat_eq seen.now of }
{
    seen.contains(&of)
}

/// Whether a record contains itself through records alone.
fn is_endless(alloc: Global, shapes: &Shapes, of: usize) -> Result<bool, Memory>
    ensures yes { IfOk result (λ b. b ≡ true → Encloses shapes.now of of) }
    ensures no { IfOk result (λ b. b ≡ false → Encloses shapes.now of of → ⊥) }
{
    let mut seen = IndexSet::new(alloc);
    add_fields(shapes, of, &mut seen)?;
    for next in 0..usize::MAX {
        match type_at(&seen, next) {
            None => return Ok(is_there(&seen, of)),
            Some(inner) => add_fields(shapes, inner, &mut seen)?,
        }
    }
    Err(Memory)
}

/// Marks the records that contain themselves through records alone, and so have no values. Takes time for each record by
/// the types that are inside it through records alone.
#[tactic(auto, using(crate::proofs::Endings::no_marks, crate::proofs::Endings::one_mark, crate::proofs::Endings::all_marks))]
pub fn mark_endless(alloc: Global, shapes: &Shapes) -> Result<Vec<bool>, Memory>
    ensures { IfOk result (λ marks. AreEndless shapes.now marks.items) }
{
    let mut marks = Vec::new(alloc);
    for of in 0..shapes.len() {
        marks.push(is_endless(alloc, shapes, of)?)?;
    }
    Ok(marks)
}
