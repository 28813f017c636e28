//! Values of types, one part after the other.
ghost use Rattle.std.specs.Prelude.{map};
ghost use Rattle.mo_types.specs.Graph.{head_at};
ghost use Rattle.candid_types.specs.Shapes.{IsTableOf, ref_of};
ghost use Rattle.exact_reading.specs.declared.stop.Stop.TheVariants as stop;
ghost use Rattle.candid_read.specs.Whole.{IfFault};
ghost use Rattle.candid_encode.specs.Puts.{Puts};
ghost use Rattle.candid_encode.specs.Flat.{Holds, Writes};

use crate::part::put_part;
use crate::refusal::Refusal;
use candid_header::Stop;
use candid_read::{next, put, start};
use candid_types::Shapes;
use mo_num::Bytes;
use mo_types::{Datum, TypeGraph};
use std::alloc::Global;

/// Writes the parts of values of the types of these numbers.
pub fn put_parts(
    alloc: Global,
    types: &TypeGraph,
    shapes: &Shapes,
    numbers: &[usize],
    parts: &[Datum],
    out: &mut Bytes,
) -> Result<(), Refusal>
    requires { IsTableOf types.now shapes.now }
    ensures { Puts (Holds (head_at types.now) (map ref_of numbers.now) parts.now) (Writes (head_at types.now) (map ref_of numbers.now) parts.now) result out.old out.new }
{
    let mut goals = start(alloc, shapes, numbers)?;
    for part in parts {
        match next(shapes, &mut goals)? {
            None => return Err(Refusal::OtherValues),
            Some(of) => {
                put_part(types, of, part, out)?;
                put(shapes, of, part, &mut goals)?;
            }
        }
    }
    match next(shapes, &mut goals)? {
        None => Ok(()),
        Some(_) => Err(Refusal::OtherValues),
    }
}
