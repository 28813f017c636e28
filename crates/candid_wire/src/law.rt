//! What is written is read.
ghost use Rattle.std.specs.Prelude.{◌≡◌, IfOk};
ghost use Rattle.mo_types.specs.Graph.{head_at};
ghost use Rattle.mo_types.specs.Values.{HaveTypes, tree};
ghost use Rattle.mo_types.specs.Wire.{refs};
ghost use Rattle.candid_laws.specs.Sound.{AreFew, AreSound};
ghost use Rattle.candid_read.specs.Whole.{IfFault};

use candid_decode::{WireFault, decode};
use candid_encode::encode;
use mo_types::{Data, Datum, TypeGraph, TypeId};
use std::alloc::Global;

/// Writes the message of values of these types, and reads it: the answer is the same values, or want of memory. Asks that
/// the types can be told apart in Candid, and that vectors have at most 10,000 items without bytes, which is what a reader
/// takes.
pub fn round_trip(
    alloc: Global,
    types: &TypeGraph,
    ids: &[TypeId],
    values: &[Datum],
) -> Result<Data, WireFault>
    requires typed { HaveTypes (head_at types.now) ids.now (tree values.now) }
    requires sound { AreSound (head_at types.now) ids.now }
    requires few { AreFew (head_at types.now) (refs ids.now) (tree values.now) }
    ensures same { IfOk result (λ d. d.parts ≡ values.now) }
    ensures quiet { IfFault result (λ _. ⊥) }
{
    let message = encode(alloc, types, ids, values)?;
    decode(alloc, types, ids, message.as_slice())
}
