//! Whole messages.
ghost use Rattle.std.specs.Prelude.{IfOk};
ghost use Rattle.mo_types.specs.Graph.{head_at};
ghost use Rattle.mo_types.specs.Values.{Values, flat, tree};
ghost use Rattle.mo_types.specs.Code.{Reads};
ghost use Rattle.candid_read.specs.Whole.{IfFault};
ghost use Rattle.candid_decode.specs.Faults.{FirstFault, Decodes};

use candid_equal::has_types;
use candid_header::{Fault, Stop, read_header};
use candid_read::{Known, read_known, skip_known};
use mo_num::Sequence;
use mo_types::{Data, TypeGraph, TypeId};
use std::alloc::Global;

/// The values of a message whose types are as many as the declared ones and equal to them. Numbers may be padded, up to
/// the length that their width needs, and a vector has at most 10,000 items without bytes. A fault is that of the first
/// place in reading order that breaks a rule. It is found before any value is made, in time by the types and the bytes.
/// Takes memory by what is read, whatever a length claims, and no native stack.
pub fn decode(alloc: Global, types: &TypeGraph, ids: &[TypeId], bytes: &[u8]) -> Result<Data, Stop>
    // The message is read as these values.
    ensures found { IfOk result (λ d. Reads (head_at types.now) ids.now bytes.now (tree d.parts)) }
    // Whatever values it is read as, they are given, unless memory runs out.
    ensures only { (values : Values) → Reads (head_at types.now) ids.now bytes.now values → Decodes (λ d. d.parts) result (flat values) }
    // The first fault in reading order.
    ensures fault { IfFault result (λ f. FirstFault types.now ids.now bytes.now f) }
{
    let (header, rest) = read_header(alloc, bytes)?;
    if !has_types(alloc, &header, types, ids)? {
        return Err(Stop::Fault(Fault::NotSubtype));
    }
    let known = Known::new(alloc, types)?;
    // The whole message is judged before any part of a value is made.
    let left = skip_known(alloc, types, &known, ids, rest)?;
    if !left.is_empty() {
        return Err(Stop::Fault(Fault::Trailing));
    }
    let (parts, _) = read_known(alloc, types, &known, ids, rest)?;
    Ok(Data {
        parts: Sequence::from_vec(parts),
    })
}
