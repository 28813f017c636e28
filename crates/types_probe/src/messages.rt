//! Candid messages and the values in them.
use crate::headers::fault_line;
use crate::types::types_of;
use crate::values::{put_values, values_of};
use candid_decode::{WireFault, decode};
use candid_encode::{Refusal, encode_checked, have_types};
use candid_read::{Known, read_known};
use mo_num::Bytes;
use mo_types::{Datum, TypeGraph, TypeId};
use probe_base::{Stop, bytes_of, hex_line, yes_or_no};
use std::alloc::Global;

/// DEFINITIONS TYPES BYTES: the values of a message of these types, or the first fault.
pub(crate) fn read(alloc: Global, words: &[Bytes]) -> Result<String, Stop> {
    let [definitions, written, digits] = words else {
        return Err(Stop::Usage);
    };
    let (types, ids) = types_of(alloc, definitions, written)?;
    let bytes = bytes_of(alloc, digits.as_slice())?;
    match decode(alloc, &types.graph, ids.as_slice(), bytes.as_slice()) {
        Ok(data) => {
            let mut out = String::new(alloc);
            put_values(alloc, &mut out, data.parts.as_slice())?;
            Ok(out)
        }
        Err(fault) => fault_line(alloc, fault),
    }
}

/// DEFINITIONS TYPES VALUES: the message of values of these types, or why it is refused.
pub(crate) fn write(alloc: Global, words: &[Bytes]) -> Result<String, Stop> {
    let [definitions, written, values] = words else {
        return Err(Stop::Usage);
    };
    let (types, ids) = types_of(alloc, definitions, written)?;
    let values = values_of(alloc, values.as_slice())?;
    match encode_checked(alloc, &types.graph, ids.as_slice(), values.as_slice()) {
        Ok(bytes) => hex_line(alloc, bytes.as_slice()),
        Err(Refusal::OtherValues) => Ok(String::from_str(alloc, "OtherValues\n")?),
        Err(Refusal::Memory) => Err(Stop::Memory),
    }
}

/// DEFINITIONS TYPES VALUES: `yes` where these are values of the types.
pub(crate) fn are_values(alloc: Global, words: &[Bytes]) -> Result<String, Stop> {
    let [definitions, written, values] = words else {
        return Err(Stop::Usage);
    };
    let (types, ids) = types_of(alloc, definitions, written)?;
    let values = values_of(alloc, values.as_slice())?;
    yes_or_no(
        alloc,
        have_types(alloc, &types.graph, ids.as_slice(), values.as_slice())?,
    )
}

// The values at the front of the bytes, and how many bytes are left.
fn read_front(
    alloc: Global,
    types: &TypeGraph,
    ids: &[TypeId],
    bytes: &[u8],
) -> Result<(Vec<Datum>, usize), WireFault> {
    let known = Known::new(alloc, types)?;
    let (parts, rest) = read_known(alloc, types, &known, ids, bytes)?;
    Ok((parts, rest.len()))
}

/// DEFINITIONS TYPES BYTES: how many bytes are left behind the values at the front, and the values, or the first fault.
pub(crate) fn read_values(alloc: Global, words: &[Bytes]) -> Result<String, Stop> {
    let [definitions, written, digits] = words else {
        return Err(Stop::Usage);
    };
    let (types, ids) = types_of(alloc, definitions, written)?;
    let bytes = bytes_of(alloc, digits.as_slice())?;
    match read_front(alloc, &types.graph, ids.as_slice(), bytes.as_slice()) {
        Ok((parts, left)) => {
            let mut out = format!(in alloc; "{left} left: ")?;
            put_values(alloc, &mut out, parts.as_slice())?;
            Ok(out)
        }
        Err(fault) => fault_line(alloc, fault),
    }
}
