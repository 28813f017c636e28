//! Values of types, one part after the other.
ghost use Rattle.std.specs.Prelude.{◌≡◌, ℕ, List, [], ◌++◌, IfOk, map};
ghost use Rattle.mo_types.specs.Values.{Values, flat, tree};
ghost use Rattle.mo_types.specs.Wire.{refs};
ghost use Rattle.candid_types.specs.Inside.{below};
ghost use Rattle.candid_types.specs.Shapes.{ref_of};
ghost use Rattle.candid_read.specs.Values.{Breaks, IsKnown, Read, known_part};
ghost use Rattle.candid_read.specs.Whole.{Reaches, Stops, IfFault, Takes, Finds};

use crate::known::Known;
use crate::part::read_part;
use crate::todo::{next, put, start};
use candid_header::Stop;
use candid_types::numbers;
use mo_types::{Datum, TypeGraph, TypeId};
use std::alloc::Global;

fn read_parts<'a>(
    alloc: Global,
    types: &TypeGraph,
    known: &Known,
    ids: &[usize],
    bytes: &'a [u8],
) -> Result<(Vec<Datum>, &'a [u8]), Stop>
    ensures found { IfOk result (λ x. Reaches (known_part types.now known.now) (below known.now.shapes) ids.now x.0.items bytes.now [] x.1.now) }
    ensures fault { IfFault result (λ f. Stops (known_part types.now known.now) (below known.now.shapes) ids.now bytes.now f) }
{
    let mut goals = start(alloc, &known.shapes, ids)?;
    let mut parts = Vec::new(alloc);
    let mut rest = bytes;
    loop {
        match next(&known.shapes, &mut goals)? {
            None => return Ok((parts, rest)),
            Some(of) => {
                let (part, after) = read_part(alloc, types, known, of, rest)?;
                put(&known.shapes, of, &part, &mut goals)?;
                parts.push(part)?;
                rest = after;
            }
        }
    }
}

/// The values of these types at the front of the bytes, flat, and the bytes after them. Numbers may be padded, up to the
/// length that their width needs, and a vector has at most 10,000 items without bytes. A record that contains itself
/// through records alone has no values. Takes memory by the parts that are read, whatever a length claims, and no native
/// stack.
pub fn read_known<'a>(
    alloc: Global,
    types: &TypeGraph,
    known: &Known,
    ids: &[TypeId],
    bytes: &'a [u8],
) -> Result<(Vec<Datum>, &'a [u8]), Stop>
    requires { IsKnown types.now known.now }
    // What is read stands at the front.
    ensures found { IfOk result (λ x. Takes (Read types.now ids.now (tree x.0.items)) bytes.now x.1.now) }
    // What stands at the front is read, whatever follows it, unless memory runs out.
    ensures only { (v : Values) (front rest : List ℕ) → Read types.now ids.now v front → bytes.now ≡ front ++ rest → Finds (λ x. (x.0.items, x.1.now)) result (flat v) rest }
    // The first fault in reading order.
    ensures fault { IfFault result (λ f. Breaks types.now ids.now bytes.now f) }
{
    let ids = numbers(alloc, ids)?;
    read_parts(alloc, types, known, ids.as_slice(), bytes)
}
