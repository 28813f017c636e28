//! Values of types, gone over and not kept.
ghost use Rattle.std.specs.Prelude.{◌≡◌, ◌↔◌, ℕ, List, [], ◌∷◌, ◌++◌, Err, IfOk, IsTrue, reverse};
ghost use Rattle.mo_types.specs.Values.{Values};
ghost use Rattle.candid_types.specs.Inside.{below};
ghost use Rattle.candid_types.specs.Shapes.{shape_at};
ghost use Rattle.candid_read.specs.Empty.{HasPassedItems, IsPassed};
ghost use Rattle.candid_read.specs.Values.{Breaks, IsKnown, Read, known_part};
ghost use Rattle.candid_read.specs.Whole.{left, IfFault, Leaves, Passes, Stops, Takes};

use crate::known::Known;
use crate::part::{is_marked, read_part};
use crate::todo::{Goal, next, put, start};
use candid_header::Stop;
use candid_types::numbers;
use mo_types::{TypeGraph, TypeId, Wire};
use std::alloc::Global;

/// Whether values of this type stand everywhere, and have no bytes.
fn is_passed(known: &Known, of: usize) -> bool
    ensures { IsTrue result ↔ IsPassed known.now.empty.items of }
{
    18 <= of && is_marked(known.empty.as_slice(), of)
}

/// Whether this is the type of a vector of items that have no bytes.
fn has_passed_items(known: &Known, of: usize) -> bool
    ensures { IsTrue result ↔ HasPassedItems known.now.empty.items (shape_at known.now.shapes of) }
{
    match known.shapes.get(of) {
        Some(Wire::Vec(item)) => is_passed(known, *item),
        _ => false,
    }
}

/// Goes over a value of a type that has no bytes, or over the outermost part of a value, and puts the types of the values
/// inside it that are still to be gone over.
fn skip_part<'a>(
    alloc: Global,
    types: &TypeGraph,
    known: &Known,
    of: usize,
    bytes: &'a [u8],
    goals: &mut Vec<Goal>,
) -> Result<&'a [u8], Stop>
    requires { IsKnown types.now known.now }
    ensures found { IfOk result (λ rest. Passes (known_part types.now known.now) (below known.now.shapes) (of ∷ left known.now.shapes (reverse goals.old.items)) bytes.now (left known.now.shapes (reverse goals.new.items)) rest.now) }
    ensures fault { IfFault result (λ f. known_part types.now known.now of bytes.now ≡ Err f) }
{
    if is_passed(known, of) {
        return Ok(bytes);
    }
    let (part, rest) = read_part(alloc, types, known, of, bytes)?;
    if has_passed_items(known, of) {
        return Ok(rest);
    }
    put(&known.shapes, of, &part, goals)?;
    Ok(rest)
}

fn skip_parts<'a>(
    alloc: Global,
    types: &TypeGraph,
    known: &Known,
    ids: &[usize],
    bytes: &'a [u8],
) -> Result<&'a [u8], Stop>
    requires { IsKnown types.now known.now }
    ensures found { IfOk result (λ rest. Passes (known_part types.now known.now) (below known.now.shapes) ids.now bytes.now [] rest.now) }
    ensures fault { IfFault result (λ f. Stops (known_part types.now known.now) (below known.now.shapes) ids.now bytes.now f) }
{
    let mut goals = start(alloc, &known.shapes, ids)?;
    let mut rest = bytes;
    // A turn that takes no bytes is one for a record, or for a type whose values have none: nothing comes near the last.
    for _ in 0..u64::MAX {
        match next(&known.shapes, &mut goals)? {
            None => return Ok(rest),
            Some(of) => {
                rest = skip_part(alloc, types, known, of, rest, &mut goals)?;
            }
        }
    }
    Err(Stop::Memory)
}

/// Goes over the values of these types at the front of the bytes, keeps no part of them, and gives the bytes after them.
/// Judges exactly as `read_known` does. A value without bytes takes one step, however many parts it has, and such items
/// of a vector take none: it takes time by the bytes and by the fields of the records there, memory by the nesting of
/// values and by the longest text, and no native stack.
pub fn skip_known<'a>(
    alloc: Global,
    types: &TypeGraph,
    known: &Known,
    ids: &[TypeId],
    bytes: &'a [u8],
) -> Result<&'a [u8], Stop>
    requires { IsKnown types.now known.now }
    // Some values stand at the front.
    ensures found { IfOk result (λ rest. (v : Values) × Takes (Read types.now ids.now v) bytes.now rest.now) }
    // What stands at the front is gone over, whatever follows it, unless memory runs out.
    ensures only { (v : Values) (front rest : List ℕ) → Read types.now ids.now v front → bytes.now ≡ front ++ rest → Leaves (λ x. x.now) result rest }
    // The first fault in reading order.
    ensures fault { IfFault result (λ f. Breaks types.now ids.now bytes.now f) }
{
    let ids = numbers(alloc, ids)?;
    skip_parts(alloc, types, known, ids.as_slice(), bytes)
}
