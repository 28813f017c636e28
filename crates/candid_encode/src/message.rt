//! Messages: Candid specification, section "Binary Format".
ghost use Rattle.std.specs.Prelude.{◌↔◌, IfErr, IfOk, IsTrue};
ghost use Rattle.mo_types.specs.Code.{Code};
ghost use Rattle.mo_types.specs.Graph.{head_at};
ghost use Rattle.mo_types.specs.Values.{HaveTypes, tree};
ghost use Rattle.candid_encode.specs.Puts.{Refuses};

use crate::refusal::Refusal;
use crate::values::put_parts;
use candid_types::{Shapes, numbers};
use candid_write::put_type_table;
use mo_num::{Bytes, Memory};
use mo_types::{Datum, TypeGraph, TypeId};
use std::alloc::Global;

/// The message of these values, if they are of these types; `OtherValues` exactly where they are not. The values are
/// flat, each part before the parts inside it. Header and numbers are the canonical ones. A length of 2^32 or more is
/// refused as want of memory. Takes no native stack by the values.
pub fn encode_checked(
    alloc: Global,
    types: &TypeGraph,
    ids: &[TypeId],
    values: &[Datum],
) -> Result<Bytes, Refusal>
    ensures typed { IfOk result (λ _. HaveTypes (head_at types.now) ids.now (tree values.now)) }
    ensures written { IfOk result (λ made. Code (head_at types.now) ids.now (tree values.now) made) }
    ensures refused { IfErr result (λ refusal. Refuses (HaveTypes (head_at types.now) ids.now (tree values.now)) refusal) }
{
    let shapes = Shapes::new(alloc, types)?;
    let arguments = numbers(alloc, ids)?;
    let mut out = Bytes::new(alloc);
    let shapes = put_type_table(alloc, shapes, arguments.as_slice(), &mut out)?;
    put_parts(
        alloc,
        types,
        &shapes,
        arguments.as_slice(),
        values,
        &mut out,
    )?;
    Ok(out)
}

/// The message of values of these types, as `encode_checked` writes it.
pub fn encode(
    alloc: Global,
    types: &TypeGraph,
    ids: &[TypeId],
    values: &[Datum],
) -> Result<Bytes, Memory>
    requires { HaveTypes (head_at types.now) ids.now (tree values.now) }
    ensures { IfOk result (λ made. Code (head_at types.now) ids.now (tree values.now) made) }
{
    match encode_checked(alloc, types, ids, values) {
        Ok(made) => Ok(made),
        Err(Refusal::Memory) => Err(Memory),
        Err(Refusal::OtherValues) => unreachable!(),
    }
}

/// Whether these are values of these types. Takes the memory of their message.
pub fn have_types(
    alloc: Global,
    types: &TypeGraph,
    ids: &[TypeId],
    values: &[Datum],
) -> Result<bool, Memory>
    ensures { IfOk result (λ answer. IsTrue answer ↔ HaveTypes (head_at types.now) ids.now (tree values.now)) }
{
    match encode_checked(alloc, types, ids, values) {
        Ok(_) => Ok(true),
        Err(Refusal::OtherValues) => Ok(false),
        Err(Refusal::Memory) => Err(Memory),
    }
}
