//! The outermost part of a value.
ghost use Rattle.std.specs.Prelude.{◌≡◌, ◌<◌, ◌≤◌, List};
ghost use Rattle.mo_types.specs.declared.datum.Datum.{Datum};
ghost use Rattle.mo_types.specs.Graph.{Slot};
ghost use Rattle.candid_header.specs.Reading.{Reading};
ghost use Rattle.exact_reading.specs.Reading.{Tells, Gives};
ghost use Rattle.candid_types.specs.Shapes.{ref_of, shape_at};
ghost use Rattle.candid_read.specs.Parts.{is_marked, plain_at, vector_at, tag_at, part_by, node_part, ref_part, part_at};

use crate::flag::{read_flag, read_option};
use crate::known::Known;
use crate::number::{read_char, read_int, read_nat, read_signed, read_unsigned};
use crate::reference::{read_blob, read_method, read_principal, read_text};
use candid_header::{Fault, Stop, read_u32};
use candid_types::{Shapes, plain};
use mo_types::{Datum, Node, Plain, TypeGraph, Wire};
use std::alloc::Global;

fn read_plain(alloc: Global, plain: Plain, bytes: &[u8]) -> Result<(Datum, &[u8]), Stop>
    ensures { Gives (λ x. (x.0, x.1.now)) result (plain_at plain bytes.now) }
{
    match plain {
        Plain::Null => Ok((Datum::Null, bytes)),
        Plain::Bool => Ok(read_flag(bytes)?),
        Plain::Nat => Ok(read_nat(bytes)?),
        Plain::Int => Ok(read_int(bytes)?),
        Plain::Nat8 => Ok(read_unsigned(1, bytes)?),
        Plain::Nat16 => Ok(read_unsigned(2, bytes)?),
        Plain::Nat32 => Ok(read_unsigned(4, bytes)?),
        Plain::Nat64 => Ok(read_unsigned(8, bytes)?),
        Plain::Int8 => Ok(read_signed(1, bytes)?),
        Plain::Int16 => Ok(read_signed(2, bytes)?),
        Plain::Int32 => Ok(read_signed(4, bytes)?),
        Plain::Int64 => Ok(read_signed(8, bytes)?),
        Plain::Float32 => Err(Stop::Fault(Fault::BadValue)),
        Plain::Float64 => Err(Stop::Fault(Fault::BadValue)),
        Plain::Text => read_text(alloc, bytes),
        Plain::Reserved => Ok((Datum::Null, bytes)),
        Plain::Empty => Err(Stop::Fault(Fault::BadValue)),
        Plain::Principal => {
            let (principal, rest) = read_principal(alloc, bytes)?;
            Ok((Datum::Principal(principal), rest))
        }
    }
}

/// Whether the type of a number is marked.
pub fn is_marked(marks: &[bool], of: usize) -> bool
    ensures { result ≡ is_marked marks.now of }
{
    match marks.get(of) {
        Some(mark) => *mark,
        None => false,
    }
}

#[tactic(auto, unfolding(crate::specs::Parts::vector_at))]
fn read_vector(mark: bool, bytes: &[u8]) -> Result<(Datum, &[u8]), Fault>
    ensures { Tells (λ x. (x.0, x.1.now)) result (vector_at mark bytes.now) }
{
    let (count, rest) = read_u32(Fault::BadValue, bytes)?;
    if mark && count > 10_000 {
        return Err(Fault::TooManyEmpty);
    }
    Ok((Datum::Many(count), rest))
}

#[tactic(auto, unfolding(crate::specs::Parts::tag_at))]
fn read_tag(tags: usize, bytes: &[u8]) -> Result<(Datum, &[u8]), Fault>
    ensures { Tells (λ x. (x.0, x.1.now)) result (tag_at tags bytes.now) }
{
    let (tag, rest) = read_u32(Fault::BadValue, bytes)?;
    if (tag as usize) < tags {
        Ok((Datum::Tag(tag), rest))
    } else {
        Err(Fault::BadValue)
    }
}

fn read_by<'a>(
    alloc: Global,
    marks: &[bool],
    head: &Wire<usize>,
    bytes: &'a [u8],
) -> Result<(Datum, &'a [u8]), Stop>
    ensures { Gives (λ x. (x.0, x.1.now)) result (part_by marks.now head.now bytes.now) }
{
    match head {
        Wire::Simple(plain) => read_plain(alloc, *plain, bytes),
        Wire::Opt(_) => Ok(read_option(bytes)?),
        Wire::Vec(item) => Ok(read_vector(is_marked(marks, *item), bytes)?),
        Wire::Record(fields) => {
            let count = fields.len();
            if count > u32::MAX as usize {
                return Err(Stop::Memory);
            }
            Ok((Datum::Record(count as u32), bytes))
        }
        Wire::Variant(tags) => Ok(read_tag(tags.len(), bytes)?),
        Wire::Func(_, _, _) => read_method(alloc, bytes),
        Wire::Service(_) => {
            let (actor, rest) = read_principal(alloc, bytes)?;
            Ok((Datum::Actor(actor), rest))
        }
    }
}

fn read_shape<'a>(
    alloc: Global,
    shapes: &Shapes,
    empty: &[bool],
    of: usize,
    bytes: &'a [u8],
) -> Result<(Datum, &'a [u8]), Stop>
    ensures { Gives (λ x. (x.0, x.1.now)) result (part_by empty.now (shape_at shapes.now of) bytes.now) }
{
    match shapes.get(of) {
        Some(head) => read_by(alloc, empty, head, bytes),
        None => Err(Stop::Fault(Fault::BadValue)),
    }
}

/// What differs from Candid, by the node of the type.
fn read_node<'a>(
    alloc: Global,
    node: &Node,
    known: &Known,
    of: usize,
    bytes: &'a [u8],
) -> Result<(Datum, &'a [u8]), Stop>
    ensures { Gives (λ x. (x.0, x.1.now)) result (node_part node.now (part_by known.now.empty.items (shape_at known.now.shapes of)) bytes.now) }
{
    if node.is_char() {
        Ok(read_char(bytes)?)
    } else if node.is_blob() {
        read_blob(alloc, bytes)
    } else if node.is_any() {
        Ok((Datum::Record(0), bytes))
    } else {
        read_shape(alloc, &known.shapes, known.empty.as_slice(), of, bytes)
    }
}

/// A part of a type of the graph.
#[tactic(auto, using(crate::proofs::Refs::node_of_number))]
fn read_of<'a>(
    alloc: Global,
    types: &TypeGraph,
    known: &Known,
    of: usize,
    bytes: &'a [u8],
) -> Result<(Datum, &'a [u8]), Stop>
    requires { 18 ≤ of }
    ensures { Gives (λ x. (x.0, x.1.now)) result (ref_part types.now (ref_of of) (part_by known.now.empty.items (shape_at known.now.shapes of)) bytes.now) }
{
    match types.get_index(of - 18) {
        Some(node) => read_node(alloc, node, known, of, bytes),
        None => read_shape(alloc, &known.shapes, known.empty.as_slice(), of, bytes),
    }
}

/// What stands at a type without parts: `()` under a tag.
#[tactic(auto, using(crate::proofs::Refs::null_is_unit, crate::proofs::Refs::others_are_none))]
fn read_unit(of: usize, bytes: &[u8]) -> Result<(Datum, &[u8]), Fault>
    requires { of < 18 }
    ensures { (slots : List Slot) (other : Reading Datum) → Tells (λ x. (x.0, x.1.now)) result (ref_part slots (ref_of of) other bytes.now) }
{
    if of == plain(Plain::Null) {
        Ok((Datum::Record(0), bytes))
    } else {
        Err(Fault::BadValue)
    }
}

/// The outermost part of a value of the type of a number, and what comes after it.
#[tactic(auto, unfolding(crate::specs::Parts::part_at))]
pub fn read_part<'a>(
    alloc: Global,
    types: &TypeGraph,
    known: &Known,
    of: usize,
    bytes: &'a [u8],
) -> Result<(Datum, &'a [u8]), Stop>
    ensures { Gives (λ x. (x.0, x.1.now)) result (part_at types.now known.now.shapes known.now.empty.items known.now.endless.items of bytes.now) }
{
    if is_marked(known.endless.as_slice(), of) {
        return Err(Stop::Fault(Fault::BadValue));
    }
    if of < 18 {
        Ok(read_unit(of, bytes)?)
    } else {
        read_of(alloc, types, known, of, bytes)
    }
}
