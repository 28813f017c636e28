//! The types whose values have no bytes.
ghost use Rattle.std.specs.Prelude.{◌≡◌, IfOk, IsTrue, length};
ghost use Rattle.std.specs.List.{list_all};
ghost use Rattle.candid_types.specs.Shapes.{shape_at};
ghost use Rattle.candid_read.specs.Parts.{is_marked as mark_of};
ghost use Rattle.candid_read.specs.Empty.{is_empty_head, marks_after, AreEmpty};

use crate::part::is_marked;
use candid_types::Shapes;
use mo_num::Memory;
use mo_types::{Entry, Plain, Wire};
use std::alloc::Global;

fn are_all_marked(marks: &[bool], entries: &[Entry<usize>]) -> bool
    ensures { result ≡ list_all (λ e. mark_of marks.now e.part) entries.now }
{
    entries.iter().all(|entry| is_marked(marks, entry.part))
}

/// Whether a type has this head and only marked types inside it, or is `null` or `reserved`.
fn is_empty_head(marks: &[bool], head: &Wire<usize>) -> bool
    ensures { result ≡ is_empty_head marks.now head.now }
{
    match head {
        Wire::Simple(Plain::Null) => true,
        Wire::Simple(Plain::Reserved) => true,
        Wire::Record(entries) => are_all_marked(marks, entries.as_slice()),
        _ => false,
    }
}

fn is_empty_at(shapes: &Shapes, marks: &[bool], of: usize) -> bool
    ensures { result ≡ is_empty_head marks.now (shape_at shapes.now of) }
{
    match shapes.get(of) {
        Some(head) => is_empty_head(marks, head),
        None => false,
    }
}

/// The marks of one level more.
#[tactic(auto, using(crate::proofs::Levels::marks_more))]
fn marks_after(alloc: Global, shapes: &Shapes, marks: &[bool]) -> Result<Vec<bool>, Memory>
    ensures { IfOk result (λ more. more.items ≡ marks_after shapes.now marks.now (length shapes.now)) }
{
    let mut more = Vec::new(alloc);
    for of in 0..shapes.len() {
        more.push(is_empty_at(shapes, marks, of))?;
    }
    Ok(more)
}

fn are_equal(left: &[bool], right: &[bool]) -> bool
    ensures { IsTrue result → left.now ≡ right.now }
{
    left == right
}

/// Marks the types whose values have no bytes: `null`, `reserved`, and the records that are built up from such types
/// alone. Takes time by the types, once for each level of such records.
#[tactic(auto, using(crate::proofs::Levels::no_level, crate::proofs::Levels::one_level, crate::proofs::Levels::all_levels))]
pub fn mark_empty(alloc: Global, shapes: &Shapes) -> Result<Vec<bool>, Memory>
    ensures { IfOk result (λ marks. AreEmpty shapes.now marks.items) }
{
    let mut marks = Vec::new(alloc);
    // Each round but the last marks one type more, and 16 of the types without parts are never marked.
    for _ in 0..shapes.len() {
        let more = marks_after(alloc, shapes, marks.as_slice())?;
        if are_equal(more.as_slice(), marks.as_slice()) {
            return Ok(marks);
        }
        marks = more;
    }
    Err(Memory)
}
