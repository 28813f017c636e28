//! Messages: Candid specification, section "Binary Format".
ghost use Rattle.std.specs.Prelude.{◌≡◌, IfOk, OnOk, Some, slice_get};
ghost use Rattle.mo_types.specs.Graph.{head_at};
ghost use Rattle.mo_types.specs.Header.{IsCanonical};
ghost use Rattle.mo_types.specs.Spelling.{shortest};
ghost use Rattle.mo_types.specs.Wire.{refs, wire};
ghost use Rattle.mo_types.specs.declared.wire.Plain.TheVariants as plain;
ghost use Rattle.mo_types.specs.declared.wire.Wire.TheVariants.{Simple};
ghost use Rattle.candid_types.specs.Shapes.{shape_at};
ghost use Rattle.candid_write.specs.Appends.{Appends};

use crate::header::put_header;
use crate::places::visit;
use candid_types::{Shapes, numbers};
use mo_num::{Bytes, Memory};
use mo_types::{TypeGraph, TypeId};
use std::alloc::Global;

/// Writes the canonical header of the types of these numbers: Candid specification, section "Type definition table".
/// Types with parts are numbered in the order of first visit, depth first, a type before its parts, each once up to
/// equality. A count of 2^32 or more is refused as want of memory. Gives the shapes back.
pub fn put_type_table(
    alloc: Global,
    shapes: Shapes,
    arguments: &[usize],
    out: &mut Bytes,
) -> Result<Shapes, Memory>
    requires { slice_get shapes 0 ≡ Some (Simple plain.Empty) }
    ensures same { IfOk result (λ given. given ≡ shapes) }
    ensures header { OnOk result (Appends (IsCanonical (shape_at shapes) shortest arguments.now) out.old out.new) }
{
    let table = visit(alloc, shapes, arguments)?;
    put_header(&table, arguments, out)?;
    Ok(table.shapes)
}

/// The canonical header of these types, as `put_type_table` writes it. Types that are not shareable, or not defined,
/// are empty in it.
pub fn type_table(alloc: Global, types: &TypeGraph, ids: &[TypeId]) -> Result<Bytes, Memory>
    ensures { IfOk result (λ made. IsCanonical (wire (head_at types.now)) shortest (refs ids.now) made) }
{
    let shapes = Shapes::new(alloc, types)?;
    let arguments = numbers(alloc, ids)?;
    let mut out = Bytes::new(alloc);
    put_type_table(alloc, shapes, arguments.as_slice(), &mut out)?;
    Ok(out)
}
